// Lists a file that is accepted, a line for each record in file order: an automata table where its first record is of a table's kind, else a chart set. A
// refusal is told as `check_file` tells it, and nothing is listed.
#![tactic(auto)]

use file_lines::{Wanted, show_file};
use messages::input::{NAME_ROOM, argument, arguments};

fn main(rt: HostRuntime) {
    if !arguments(
        &rt,
        2,
        2,
        b"usage: list FILE\nlists a chart set or an automata table that is accepted, a line for each record\n",
    ) {
        return;
    }
    let mut name = [0u8; NAME_ROOM];
    let Some(size) = argument(&rt, 1, &mut name) else {
        return
    };
    show_file(&rt, Wanted::Records, &name[..size]);
}
