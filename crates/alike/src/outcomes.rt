// Whether the answers of a set and of its twin are alike.
ghost use Rattle.std.specs.Prelude.{◌≡◌, true, ◌-◌, eqb, get_or};
ghost use Rattle.answers.specs.Answers.{answer_of, ending_of, cycles_of};
ghost use Rattle.alike.specs.Alike.{idle_at, answers_alike, outs_alike};

use answers::{Answer, Stop};
use automata_records::Shape;
use automata_records::fields::{idles, source_of, target_of};
use records::sizes::{CHARTS, Places};

// The state of the present position's chart.
pub fn state_at(states: Places, position: u32) -> u16
    ensures { result ≡ get_or states (position - 1) 0 }
{
    let c = position.saturating_sub(1) as usize;
    if c < CHARTS { states[c] } else { 0 }
}

fn idle_at(t: &[u8], shape: Shape, e: u16, location: u16) -> bool
    ensures { result ≡ idle_at t.now shape e location }
{
    (e < shape.edges)
        & idles(t, shape, e)
        & (source_of(t, shape, e) == location)
        & (target_of(t, shape, e) == location)
}

// The answers of a turn whose chart was in a state: the twin takes the edge of the transition taken, and where the chart idles an idle edge of its state.
pub fn answers_alike(t: &[u8], shape: Shape, state: u16, answer: Answer, other: Answer) -> bool
    ensures { result ≡ outs_alike (answers_alike t.now shape state) (answer_of answer) (answer_of other) }
{
    match (answer, other) {
        (Answer::Taken(x), Answer::Taken(e)) => e == x,
        (Answer::Idle, Answer::Taken(e)) => idle_at(t, shape, e, state),
        (Answer::Time, Answer::Time) => true,
        (Answer::Fault(v), Answer::Fault(w)) => v == w,
        (Answer::Refused(v), Answer::Refused(w)) => v == w,
        _ => false,
    }
}

// Of each kind of call its own, as the contract reads each by its own definition.
pub fn endings_alike(ending: Result<(), Stop>, other: Result<(), Stop>) -> bool
    ensures { result ≡ outs_alike (λ _ _. true) (ending_of ending) (ending_of other) }
{
    ending == other
}

pub fn counts_alike(count: Result<u32, Stop>, other: Result<u32, Stop>) -> bool
    ensures { result ≡ outs_alike eqb (cycles_of count) (cycles_of other) }
{
    count == other
}
