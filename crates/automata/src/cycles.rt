// Cycles of automata: by turns, one call after the other; and in place, on the arrays of a run, for many cycles. Beside those of charts, as turns are.
ghost use Rattle.std.specs.Prelude.{◌≡◌, ◌+◌, ◌-◌, length, Err};
ghost use Rattle.model.specs.Limits.{most_clocks};
ghost use Rattle.model.specs.Outcome.{settled};
ghost use Rattle.model.specs.Runs.{cycle as model-cycle};
ghost use Rattle.model.specs.AutomataTable.{read_automata};
ghost use Rattle.model.specs.Automata.{automata as machine};
ghost use Rattle.machines.specs.Turns.{after};
ghost use Rattle.automata_records.specs.Accepted.{Accepted};
ghost use Rattle.machines.specs.Worlds.{moment, run_in};
ghost use Rattle.automata.specs.RunOf.{run_of, Sized, HasLimits};
ghost use Rattle.automata_steps.specs.Prepared.{Prepared};
ghost use Rattle.automata.specs.TurnOf.{called_of, Ready, progress_of, ClocksLeft, cycled_of, ended_of};

use super::runs::{Limits, Run, before_turn, grow};
use super::turns::turn;
use answers::{Answer, Reason, Stop};
use automata_records::Shape;
use automata_steps::index::with_index;
use automata_steps::steps::edge_step;
use machines::checks::events_given;
use records::sizes::{Clocks, Places, TableHeads, Variables};

// The answer of a call that is done or not, and the run after it.
#[derive(Clone, Copy)]
pub struct Called {
    pub answer: Result<(), Stop>,
    pub run: Run,
}

// A cycle is its turns, one call after the other, up to time's; its events are given to the first. If a turn faults or is refused, the run is as it was.
fn turns_of_cycle(
    s: &[u8],
    shape: Shape,
    first: &TableHeads,
    next: &[u16],
    run: Run,
    events: u32,
) -> Called
    requires { Prepared s.now shape first.now next.now }
    ensures { called_of result ≡ settled (run_of run) (model-cycle (machine (read_automata s.now)) events (run_of run)) }
{
    let mut present = run;
    let mut given = events;
    loop {
        let turned = turn(s, shape, first, next, present, given);
        let after = turned.run;
        let answer = turned.answer;
        match answer {
            Answer::Taken(_) | Answer::Idle => {
                present = after;
                given = 0;
            }
            Answer::Time => {
                return Called {
                    answer: Ok(()),
                    run: after,
                };
            }
            Answer::Fault(w) => {
                return Called {
                    answer: Err(Stop::Fault(w)),
                    run,
                };
            }
            Answer::Refused(w) => {
                return Called {
                    answer: Err(Stop::Refused(w)),
                    run,
                };
            }
        }
    }
}

// A cycle of an accepted table: all its turns, or none.
pub fn cycle_by_turns(s: &[u8], shape: Shape, run: Run, events: u32) -> Called
    requires { Accepted s.now shape }
    ensures { called_of result ≡ settled (run_of run) (model-cycle (machine (read_automata s.now)) events (run_of run)) }
{
    with_index(s, shape, |first, next| {
        turns_of_cycle(s, shape, first, next, run, events)
    })
}

// The automata's turns of a cycle, in place, from the present position on: all were taken, or why one was not.
fn automata_turns(
    s: &[u8],
    shape: Shape,
    first: &TableHeads,
    next: &[u16],
    locations: &mut Places,
    clocks: &mut Clocks,
    vars: &mut Variables,
    events: u32,
    position: u32,
    cycles: u32,
) -> Result<(), Reason>
    requires prepared { Prepared s.now shape first.now next.now }
    requires ready { Ready shape (run_in locations.old clocks.old vars.old events (moment position cycles)) }
    ensures cycles_after { progress_of (machine (read_automata s.now)) result (run_in locations.new clocks.new vars.new 0 (moment (shape.automata + 1) cycles)) ≡ after (machine (read_automata s.now)) (shape.automata + 2 - position) (run_in locations.old clocks.old vars.old events (moment position cycles)) }
    ensures clocks_left { ClocksLeft shape.clocks clocks.old result clocks.new }
{
    let mut present = events;
    for automaton in (position - 1) as u16..shape.automata {
        let (_, after) = edge_step(
            s, shape, first, next, automaton, locations, clocks, vars, present,
        )?;
        present = after;
    }
    Ok(())
}

// A cycle in place, from the present position on. After a fault the places are of no use.
fn cycle_or_fault(
    s: &[u8],
    shape: Shape,
    first: &TableHeads,
    next: &[u16],
    limits: &Limits,
    locations: &mut Places,
    clocks: &mut Clocks,
    vars: &mut Variables,
    events: u32,
    position: u32,
    cycles: u32,
) -> Result<(), Reason>
    requires prepared { Prepared s.now shape first.now next.now }
    requires ready { Ready shape (run_in locations.old clocks.old vars.old events (moment position cycles)) }
    requires clocks_len { length clocks.old ≡ most_clocks }
    requires has_limits { HasLimits s.now shape limits.now }
    ensures { cycled_of result (run_in locations.new clocks.new vars.new 0 (moment 1 (cycles + 1))) ≡ after (machine (read_automata s.now)) (shape.automata + 2 - position) (run_in locations.old clocks.old vars.old events (moment position cycles)) }
{
    automata_turns(
        s, shape, first, next, locations, clocks, vars, events, position, cycles,
    )?;
    grow(s, shape, limits, clocks);
    Ok(())
}

// A cycle in place, from the present position on: all its turns, or none.
pub fn cycle_or_none(
    s: &[u8],
    shape: Shape,
    first: &TableHeads,
    next: &[u16],
    limits: &Limits,
    locations: &mut Places,
    clocks: &mut Clocks,
    vars: &mut Variables,
    events: u32,
    position: u32,
    cycles: u32,
) -> Result<(), Reason>
    requires prepared { Prepared s.now shape first.now next.now }
    requires ready { Ready shape (run_in locations.old clocks.old vars.old events (moment position cycles)) }
    requires clocks_len { length clocks.old ≡ most_clocks }
    requires has_limits { HasLimits s.now shape limits.now }
    ensures cycles_after { cycled_of result (run_in locations.new clocks.new vars.new 0 (moment 1 (cycles + 1))) ≡ after (machine (read_automata s.now)) (shape.automata + 2 - position) (run_in locations.old clocks.old vars.old events (moment position cycles)) }
    ensures vars_unchanged { (w : Reason) → result ≡ Err w → run_in locations.new clocks.new vars.new ≡ run_in locations.old clocks.old vars.old }
{
    let locations_before = *locations;
    let clocks_before = *clocks;
    let vars_before = *vars;
    let done = cycle_or_fault(
        s, shape, first, next, limits, locations, clocks, vars, events, position, cycles,
    );
    if done.is_err() {
        *locations = locations_before;
        *clocks = clocks_before;
        *vars = vars_before;
    }
    done
}

// A cycle of any run, in place, after the checks. After it there are no events, at position 1; of the places after a fault nothing is said.
pub fn cycle_after_checks(
    s: &[u8],
    shape: Shape,
    first: &TableHeads,
    next: &[u16],
    limits: &Limits,
    locations: &mut Places,
    clocks: &mut Clocks,
    vars: &mut Variables,
    present: u32,
    position: u32,
    cycles: u32,
    events: u32,
) -> Result<(), Stop>
    requires prepared { Prepared s.now shape first.now next.now }
    requires sized { Sized locations.old clocks.old vars.old }
    requires has_limits { HasLimits s.now shape limits.now }
    ensures { ended_of result (run_in locations.new clocks.new vars.new 0 (moment 1 (cycles + 1))) ≡ model-cycle (machine (read_automata s.now)) events (run_in locations.old clocks.old vars.old present (moment position cycles)) }
{
    before_turn(
        s, shape, locations, clocks, vars, present, position, cycles, events,
    )?;
    let given = events_given(events, position, present);
    cycle_or_none(
        s, shape, first, next, limits, locations, clocks, vars, given, position, cycles,
    )?;
    Ok(())
}
