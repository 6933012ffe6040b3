// A refused file told: its number and meaning, and behind them what the file seems to be where that is not what was wanted.
use crate::host::Host;
use crate::input::Form;
use crate::words::say;
use file_kinds::{Seen, seen_as};
use records::refusals::Refusal;

fn note_set(rt: &impl Host, form: Form) {
    match form {
        Form::Table => rt.tell(b" (a chart set: replay plays it, translate makes its twin)"),
        _ => (),
    }
}

fn note_table(rt: &impl Host, form: Form) {
    match form {
        Form::Set => rt.tell(b" (an automata table: replay-twin plays it, check and list read it)"),
        _ => (),
    }
}

fn note_neither(rt: &impl Host) {
    rt.tell(b" (neither a chart set nor an automata table)");
}

fn note_empty(rt: &impl Host) {
    rt.tell(b" (the file is empty)");
}

// Behind the refusal of a file that was read as a form.
pub fn note(rt: &impl Host, form: Form, seen: Seen) {
    match seen {
        Seen::Empty => note_empty(rt),
        Seen::Set => note_set(rt, form),
        Seen::Table => note_table(rt, form),
        Seen::Neither => note_neither(rt),
    }
}

pub fn tell_file(rt: &impl Host, w: Refusal, form: Form, seen: Seen) {
    say(rt, w);
    note(rt, form, seen);
    rt.tell(b"\n");
}

// A file that was to be a set, or a refused call on one.
pub fn refuse_set(rt: &impl Host, s: &[u8], w: Refusal) {
    let seen = seen_as(s);
    tell_file(rt, w, Form::Set, seen);
}

// A file that was to be a table.
pub fn refuse_table(rt: &impl Host, s: &[u8], w: Refusal) {
    let seen = seen_as(s);
    tell_file(rt, w, Form::Table, seen);
}
