// A refusal of a file that is named, told on standard error: its number and meaning, with the first record that breaks the rule where one does by itself, and
// what the file is where it is neither a set nor a table.
#![tactic(auto)]

use file_kinds::seen_as;
use findings::{Rule, find};
use messages::files::note;
use messages::host::Host;
use messages::input::Form;
use messages::words::say;
use records::refusals::Refusal;

// Whether there is such a record, of which it is told what is wrong.
fn tell_record(rt: &impl Host, s: &[u8], rule: Rule, words: &[u8]) -> bool {
    let Some(n) = find(rule, s) else { return false };
    rt.tell(b" (record ");
    let _ = rt.eprint(n);
    rt.tell(words);
    rt.tell(b")");
    true
}

// The line's end, after what the file seems to be where that is neither.
fn end_line(rt: &impl Host, s: &[u8]) {
    let seen = seen_as(s);
    note(rt, Form::Either, seen);
    rt.tell(b"\n");
}

pub fn tell_set(rt: &impl Host, s: &[u8], w: Refusal) {
    say(rt, w);
    match w {
        Refusal::UnorderedKinds => tell_record(rt, s, Rule::SetKinds, b": unknown"),
        Refusal::StrayByte => tell_record(rt, s, Rule::SetBytes, b""),
        Refusal::BrokenCode => tell_record(rt, s, Rule::SetCodes, b""),
        Refusal::ZeroTicks => tell_record(rt, s, Rule::SetTicks, b""),
        _ => false,
    };
    end_line(rt, s);
}

// What is told of 11 is the first of 2, 4 and 5 that a record breaks.
pub fn tell_table(rt: &impl Host, s: &[u8]) {
    say(rt, Refusal::BadTable);
    let _ = tell_record(rt, s, Rule::TableKinds, b": kind unknown")
        || tell_record(
            rt,
            s,
            Rule::TableBytes,
            b": an unnamed or unused byte not zero",
        )
        || tell_record(rt, s, Rule::TableCodes, b": a code or range broken");
    end_line(rt, s);
}
