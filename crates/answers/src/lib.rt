// What turns, cycles and long runs answer, of charts and of automata alike, and the numbers of the answers.
#![tactic(auto)]

ghost use Rattle.std.specs.Prelude.{◌≡◌, ℕ, ◌<◌, ◌^◌, pos, neg_ℤ};
ghost use Rattle.records.specs.Refusal.{refusal_number, val};
ghost use Rattle.records.specs.RefusalOf.{refusal_of};
ghost use Rattle.expressions.specs.Answers.{value_reason_of};
ghost use Rattle.model.specs.Calls.{numbered, answer_code};
ghost use Rattle.answers.specs.Answers.{reason_of, refused_code, answer_of, stop_of, ending_of, cycles_of, done_code, count_code};
ghost use Rattle.answers.specs.declared.Stop.TheVariants.{Fault, Refused};

use expressions::outcomes;
use records::refusals::{Refusal, refusal_number};

// Why a turn faults, each by its number in the refusal table: a number out of 32 bits, a zero divisor, a number out of its variable's bounds; of automata also
// no edge open, two or more open.
#[derive(Clone, Copy, PartialEq, Eq)]
pub enum Reason {
    Range = 15,
    Divisor = 16,
    Bounds = 17,
    NoneOpen = 18,
    ManyOpen = 19,
}

// The faults of an expression are among those of a turn.
impl From<outcomes::Reason> for Reason {
    ghost from_gives = { λ w e. reason_of e ≡ value_reason_of w };

    fn from(w: outcomes::Reason) -> Reason {
        match w {
            outcomes::Reason::Range => Reason::Range,
            outcomes::Reason::Divisor => Reason::Divisor,
        }
    }
}

// A turn's: the transition or edge taken, that the chart idled, that time passed, why it faulted, or why it was refused. Automata never idle. One enum, and no
// Result with `Stop`: document 01 names this form (docs/DECISIONS.md, "Forms that document 01 names").
#[derive(Clone, Copy)]
pub enum Answer {
    Taken(u16),
    Idle,
    Time,
    Fault(Reason),
    Refused(Refusal),
}

// Why a call that is done or not, or that counts, ended with neither.
#[derive(Clone, Copy, PartialEq, Eq)]
pub enum Stop {
    Fault(Reason),
    Refused(Refusal),
}

impl From<Reason> for Stop {
    ghost from_gives = { λ w e. e ≡ Fault w };

    fn from(w: Reason) -> Stop {
        Stop::Fault(w)
    }
}

impl From<Refusal> for Stop {
    ghost from_gives = { λ w e. e ≡ Refused w };

    fn from(w: Refusal) -> Stop {
        Stop::Refused(w)
    }
}

// Its number in the refusal table.
pub fn reason_number(w: Reason) -> u8
    ensures { result ≡ refusal_number (reason_of w) }
{
    w as u8
}

fn minus(n: u8) -> i32
    ensures { result ≡ neg_ℤ (pos n) }
{
    -i32::from(n)
}

// A refusal or fault is minus its number.
pub fn refused_code(w: Refusal) -> i32
    ensures { result ≡ refused_code (refusal_of w) }
{
    minus(refusal_number(w))
}

fn fault_code(w: Reason) -> i32
    ensures { result ≡ refused_code (reason_of w) }
{
    minus(reason_number(w))
}

// The transition or edge taken, 65,534 where the chart idled, 65,535 where time passed.
pub fn answer_code(answer: Answer) -> i32
    ensures { result ≡ numbered answer_code (answer_of answer) }
{
    match answer {
        Answer::Taken(t) => t as i32,
        Answer::Idle => 65534,
        Answer::Time => 65535,
        Answer::Fault(w) => fault_code(w),
        Answer::Refused(w) => refused_code(w),
    }
}

fn stop_code(why: Stop) -> i32
    ensures { result ≡ refused_code (stop_of why) }
{
    match why {
        Stop::Fault(w) => fault_code(w),
        Stop::Refused(w) => refused_code(w),
    }
}

pub fn ending_code(answer: Result<(), Stop>) -> i32
    ensures { result ≡ numbered done_code (ending_of answer) }
{
    match answer {
        Ok(()) => 0,
        Err(why) => stop_code(why),
    }
}

pub fn count_code(answer: Result<u32, Stop>) -> i32
    requires { (n : ℕ) → cycles_of answer ≡ val n → n < 2 ^ 31 }
    ensures { result ≡ numbered count_code (cycles_of answer) }
{
    match answer {
        Ok(n) => n as i32,
        Err(why) => stop_code(why),
    }
}
