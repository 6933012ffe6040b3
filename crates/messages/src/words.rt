// Refusals and faults in words: a line of their number and meaning on standard error.
ghost use Rattle.std.specs.Prelude.{◌≡◌};
ghost use Rattle.std.specs.Result.{result_ok};

use crate::host::Host;
use answers::{Reason, Stop, reason_number};
use records::refusals::{Refusal, refusal_number};
use std::fmt::InlineText;
use std::io;
use std::io::Error;

fn refusal_meaning(w: Refusal) -> &'static [u8] {
    match w {
        Refusal::OddLength => b"length no multiple of 16",
        Refusal::UnorderedKinds => b"kind unknown or descending",
        Refusal::WrongAmounts => b"no chart, or too many of a kind",
        Refusal::StrayByte => b"an unnamed or unused byte not zero",
        Refusal::BrokenCode => b"a code or range broken",
        Refusal::DanglingNumber => b"a number naming nothing",
        Refusal::BrokenStructure =>
            b"broken structure of charts, initial states, priorities or actions",
        Refusal::BrokenNode => b"a node of the wrong order or sort, or not used exactly once",
        Refusal::ZeroTicks => b"timing trigger of 0 ticks",
        Refusal::ShortBuffer => b"result longer than the buffer",
        Refusal::BadTable => b"automata table broken",
        Refusal::ImpossibleRun => b"state impossible for the file",
        Refusal::MisplacedEvents => b"events given elsewhere than at position 1",
        Refusal::CyclesDone => b"1,000,000 cycles done",
        Refusal::BrokenPath =>
            b"the path names no edge, breaks turn order, goes on after 1,000,000 cycles, or an edge does not leave where its automaton stands",
        Refusal::ShortRows => b"more rows than lent",
        Refusal::BrokenLine => b"a line outside the grammar, or a constant outside 32 bits",
        Refusal::WrongSort => b"an operand of the wrong sort, or a number as the whole line",
        Refusal::ShortSpace => b"too little space for nodes or text",
        Refusal::UnlikeWaits => b"waiting actions of one state with different milliseconds",
    }
}

fn fault_meaning(w: Reason) -> &'static [u8] {
    match w {
        Reason::Range => b"number out of range",
        Reason::Divisor => b"zero divisor",
        Reason::Bounds => b"assigned value outside its variable",
        Reason::NoneOpen => b"no edge open",
        Reason::ManyOpen => b"two or more edges open",
    }
}

fn say_numbered(rt: &impl Host, word: &[u8], number: u8, meaning: &[u8]) {
    rt.tell(word);
    let _ = rt.eprint(number);
    rt.tell(b": ");
    rt.tell(meaning);
}

// The number and meaning of a refusal or fault, without the line's end.
pub fn say<W>(rt: &impl Host, why: W)
where
    Stop: From<W>,
{
    match Stop::from(why) {
        Stop::Fault(w) => say_numbered(rt, b"fault ", reason_number(w), fault_meaning(w)),
        Stop::Refused(w) => say_numbered(rt, b"refusal ", refusal_number(w), refusal_meaning(w)),
    }
}

pub fn tell_refusal(rt: &impl Host, w: Refusal) {
    say(rt, w);
    rt.tell(b"\n");
}

pub fn tell_fault(rt: &impl Host, w: Reason) {
    say(rt, w);
    rt.tell(b"\n");
}

pub fn tell_stop(rt: &impl Host, why: Stop) {
    match why {
        Stop::Fault(w) => tell_fault(rt, w),
        Stop::Refused(w) => tell_refusal(rt, w),
    }
}

// A line: what failed, and why. Of an error of the system its text is said, and not its number, which `io::Error` has behind it.
pub fn tell_failed(rt: &impl Host, what: &[u8], why: Error) {
    let text: InlineText<128> = InlineText::of(why);
    let whole = text.as_str();
    let said = match whole.split_once(" (os error ") {
        Some((before, _)) => before,
        None => whole,
    };
    rt.tell(what);
    rt.tell(b": ");
    rt.tell(said.as_bytes());
    rt.tell(b"\n");
}

// The value; where there is none, why is told.
pub fn or_tell<T>(rt: &impl Host, what: &[u8], answer: io::Result<T>) -> Option<T>
    ensures { result ≡ result_ok answer }
{
    match answer {
        Ok(x) => Some(x),
        Err(why) => {
            tell_failed(rt, what, why);
            None
        }
    }
}

// Whether a text went to standard output; else that is told.
pub fn print(rt: &impl Host, text: &[u8]) -> bool {
    or_tell(rt, b"standard output", rt.write_all(text)).is_some()
}
