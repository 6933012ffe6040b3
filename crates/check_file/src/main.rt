// Checks a file: a table of automata where its first record is of a table's kind, else a chart set. Of one that is accepted it prints how many records it has
// of each kind; a refusal's number and meaning go to standard error, with the first record that breaks the rule where one does by itself.
#![tactic(auto)]

use file_kinds::is_table;
use messages::host::Host;
use messages::input::{Form, NAME_ROOM, argument, arguments, read_file};
use messages::texts::{set_into, table_into};
use messages::words::print;
use records::sizes::FILE_ROOM;
use refusals::{tell_set, tell_table};

fn print_set(rt: &impl Host, shape: chart_records::Shape) {
    let mut text = [0u8; NAME_ROOM];
    let size = set_into(&mut text, shape);
    print(rt, &text[..size]);
}

fn print_table(rt: &impl Host, shape: automata_records::Shape) {
    let mut text = [0u8; NAME_ROOM];
    let size = table_into(&mut text, shape);
    print(rt, &text[..size]);
}

fn check_set(rt: &impl Host, s: &[u8]) {
    match chart_files::check(s) {
        Err(w) => tell_set(rt, s, w),
        Ok(shape) => print_set(rt, shape),
    }
}

fn check_table(rt: &impl Host, s: &[u8]) {
    match automata_files::check(s) {
        Err(_) => tell_table(rt, s),
        Ok(shape) => print_table(rt, shape),
    }
}

fn check_bytes(rt: &impl Host, s: &[u8]) {
    if is_table(s) {
        check_table(rt, s);
    } else {
        check_set(rt, s);
    }
}

fn check_named(rt: &impl Host, name: &[u8]) {
    let mut file = [0u8; FILE_ROOM];
    let Ok(size) = read_file(rt, name, &mut file, Form::Either) else {
        return
    };
    check_bytes(rt, &file[..size]);
}

fn main(rt: HostRuntime) {
    if !arguments(
        &rt,
        2,
        2,
        b"usage: check_file FILE\nchecks a chart set or an automata table, and tells its counts or its refusal\n",
    ) {
        return;
    }
    let mut name = [0u8; NAME_ROOM];
    let Some(size) = argument(&rt, 1, &mut name) else {
        return
    };
    check_named(&rt, &name[..size]);
}
