// One call on a set and on its twin.
ghost use Rattle.std.specs.Prelude.{◌≡◌};
ghost use Rattle.model.specs.Runs.{one_turn, whole_cycle};
ghost use Rattle.chart_records.specs.Accepted as of-charts;
ghost use Rattle.chart_runs.specs.RunOf as charts-run;
ghost use Rattle.automata_records.specs.Accepted as of-automata;
ghost use Rattle.automata.specs.RunOf as automata-run;
ghost use Rattle.alike.specs.Alike.{called, call_for, is_turn};
ghost use Rattle.twins.specs.Compared.{pair_of};

use alike::outcomes::{answers_alike, endings_alike, state_at};
use alike::runs::runs_alike;

// Whether the call was alike, and the runs that it leaves, which `called` tells of in either case.
#[derive(Clone, Copy)]
pub struct Both {
    pub alike: bool,
    pub run: chart_runs::Run,
    pub twin: automata::runs::Run,
}

fn turn_both(
    s: &[u8],
    shape: chart_records::Shape,
    t: &[u8],
    table: automata_records::Shape,
    run: chart_runs::Run,
    twin: automata::runs::Run,
    events: u32,
) -> Both
    requires { of-charts.Accepted s.now shape × of-automata.Accepted t.now table }
    ensures { pair_of result ≡ called s.now t.now table (one_turn events) (charts-run.run_of run) (automata-run.run_of twin) }
{
    let states = run.states;
    let state = state_at(states, run.position);
    let turned = charts::turns::one_turn(s, shape, run, events);
    let other = automata::turns::one_turn(t, table, twin, events);
    let answer = turned.answer;
    let reply = other.answer;
    let left = turned.run;
    let twin_left = other.run;
    let alike = answers_alike(t, table, state, answer, reply)
        & runs_alike(t, table, left, twin_left);
    Both {
        alike,
        run: left,
        twin: twin_left,
    }
}

fn cycle_both(
    s: &[u8],
    shape: chart_records::Shape,
    t: &[u8],
    table: automata_records::Shape,
    run: chart_runs::Run,
    twin: automata::runs::Run,
    events: u32,
) -> Both
    requires { of-charts.Accepted s.now shape × of-automata.Accepted t.now table }
    ensures { pair_of result ≡ called s.now t.now table (whole_cycle events) (charts-run.run_of run) (automata-run.run_of twin) }
{
    let done = charts::cycles::cycle_by_turns(s, shape, run, events);
    let other = automata::cycles::cycle_by_turns(t, table, twin, events);
    let answer = done.answer;
    let reply = other.answer;
    let left = done.run;
    let twin_left = other.run;
    let alike = endings_alike(answer, reply) & runs_alike(t, table, left, twin_left);
    Both {
        alike,
        run: left,
        twin: twin_left,
    }
}

// A turn or a cycle: `call_for` in the contract is by the same truth, which is read from the call's kind.
pub fn call_both(
    s: &[u8],
    shape: chart_records::Shape,
    t: &[u8],
    table: automata_records::Shape,
    run: chart_runs::Run,
    twin: automata::runs::Run,
    turn: bool,
    events: u32,
) -> Both
    requires { of-charts.Accepted s.now shape × of-automata.Accepted t.now table }
    ensures { pair_of result ≡ called s.now t.now table (call_for turn events) (charts-run.run_of run) (automata-run.run_of twin) }
{
    if turn {
        turn_both(s, shape, t, table, run, twin, events)
    } else {
        cycle_both(s, shape, t, table, run, twin, events)
    }
}

// Whether call k is a turn: kinds are bytes, as the contract of `compare` has them.
pub fn is_turn(kinds: &[u8], k: usize) -> bool
    ensures { result ≡ is_turn kinds.now k }
{
    k < kinds.len() && kinds[k] == 0
}
