// Turns of automata, in place on the arrays of a run, where a run by value is copied (docs/SPEED.md, "A run lent and given back"). They stand beside
// those of charts, as the two runs are structs of the C interface and document 01 names both (docs/DECISIONS.md, "Forms that document 01 names").
ghost use Rattle.std.specs.Prelude.{◌≡◌, ℕ, ◌≤◌, length};
ghost use Rattle.model.specs.Limits.{most_clocks};
ghost use Rattle.model.specs.Outcome.{settled};
ghost use Rattle.model.specs.Runs.{stepped, turn as model-turn};
ghost use Rattle.model.specs.AutomataTable.{read_automata};
ghost use Rattle.model.specs.Automata.{automata as machine};
ghost use Rattle.automata_records.specs.Accepted.{Accepted};
ghost use Rattle.machines.specs.Worlds.{moment, run_in};
ghost use Rattle.automata.specs.RunOf.{run_of, Sized};
ghost use Rattle.automata_steps.specs.Prepared.{Prepared};
ghost use Rattle.automata.specs.TurnOf.{turn_of, taken_of, Ready};

use super::runs::{Run, before_turn, pass_time, run_in};
use answers::Answer;
use automata_records::Shape;
use automata_steps::index::with_index;
use automata_steps::steps::edge_step;
use machines::checks::events_given;
use records::sizes::{Clocks, Places, TableHeads, Variables};

// A turn's answer, and the run after it.
#[derive(Clone, Copy)]
pub struct Turned {
    pub answer: Answer,
    pub run: Run,
}

// An automaton's turn, and the next position. After a fault the places are of no use.
fn automaton_turn(
    s: &[u8],
    shape: Shape,
    first: &TableHeads,
    next: &[u16],
    locations: &mut Places,
    clocks: &mut Clocks,
    vars: &mut Variables,
    events: &mut u32,
    position: &mut u32,
) -> Answer
    requires prepared { Prepared s.now shape first.now next.now }
    requires le_position { (1 ≤ position.old) × (position.old ≤ shape.automata) }
    ensures { (c : ℕ) → taken_of result (run_in locations.new clocks.new vars.new events.new (moment position.new c)) ≡ stepped (machine (read_automata s.now)) (run_in locations.old clocks.old vars.old events.old (moment position.old c)) }
{
    let place = *position;
    match edge_step(
        s,
        shape,
        first,
        next,
        (place - 1) as u16,
        locations,
        clocks,
        vars,
        *events,
    ) {
        Err(w) => Answer::Fault(w),
        Ok((edge, after)) => {
            *events = after;
            *position = place + 1;
            Answer::Taken(edge)
        }
    }
}

// The turn of the present position: an automaton's, or time's. After a fault the places are of no use.
fn turn_taken(
    s: &[u8],
    shape: Shape,
    first: &TableHeads,
    next: &[u16],
    locations: &mut Places,
    clocks: &mut Clocks,
    vars: &mut Variables,
    events: &mut u32,
    position: &mut u32,
    cycles: &mut u32,
) -> Answer
    requires prepared { Prepared s.now shape first.now next.now }
    requires ready { Ready shape (run_in locations.old clocks.old vars.old events.old (moment position.old cycles.old)) }
    requires clocks_len { length clocks.old ≡ most_clocks }
    ensures { taken_of result (run_in locations.new clocks.new vars.new events.new (moment position.new cycles.new)) ≡ stepped (machine (read_automata s.now)) (run_in locations.old clocks.old vars.old events.old (moment position.old cycles.old)) }
{
    if *position <= (shape.automata as u32) {
        automaton_turn(
            s, shape, first, next, locations, clocks, vars, events, position,
        )
    } else {
        pass_time(s, shape, clocks);
        *events = 0;
        *position = 1;
        *cycles += 1;
        Answer::Time
    }
}

// A turn in place, after the checks. After a fault the places are of no use.
fn turn_in_place(
    s: &[u8],
    shape: Shape,
    first: &TableHeads,
    next: &[u16],
    locations: &mut Places,
    clocks: &mut Clocks,
    vars: &mut Variables,
    present: &mut u32,
    position: &mut u32,
    cycles: &mut u32,
    events: u32,
) -> Answer
    requires prepared { Prepared s.now shape first.now next.now }
    requires sized { Sized locations.old clocks.old vars.old }
    ensures { taken_of result (run_in locations.new clocks.new vars.new present.new (moment position.new cycles.new)) ≡ model-turn (machine (read_automata s.now)) events (run_in locations.old clocks.old vars.old present.old (moment position.old cycles.old)) }
{
    match before_turn(
        s, shape, locations, clocks, vars, *present, *position, *cycles, events,
    ) {
        Err(w) => Answer::Refused(w),
        Ok(()) => {
            *present = events_given(events, *position, *present);
            turn_taken(
                s, shape, first, next, locations, clocks, vars, present, position, cycles,
            )
        }
    }
}

// A turn's answer with the run after it: what is in the places, or what was lent where no turn was taken.
fn settle_turn(
    lent: Run,
    locations: &Places,
    clocks: &Clocks,
    vars: &Variables,
    events: u32,
    position: u32,
    cycles: u32,
    answer: Answer,
) -> Turned
    ensures { turn_of result ≡ settled (run_of lent) (taken_of answer (run_in locations.now clocks.now vars.now events (moment position cycles))) }
{
    match answer {
        Answer::Fault(_) | Answer::Refused(_) => Turned { answer, run: lent },
        Answer::Taken(_) | Answer::Idle | Answer::Time => {
            let run = run_in(locations, clocks, vars, events, position, cycles);
            Turned { answer, run }
        }
    }
}

// A turn of an accepted table whose index is made.
pub fn turn(
    s: &[u8],
    shape: Shape,
    first: &TableHeads,
    next: &[u16],
    run: Run,
    events: u32,
) -> Turned
    requires { Prepared s.now shape first.now next.now }
    ensures { turn_of result ≡ settled (run_of run) (model-turn (machine (read_automata s.now)) events (run_of run)) }
{
    let mut locations = run.locations;
    let mut clocks = run.clocks;
    let mut variables = run.variables;
    let mut present = run.events;
    let mut position = run.position;
    let mut cycles = run.cycles;
    let answer = turn_in_place(
        s,
        shape,
        first,
        next,
        &mut locations,
        &mut clocks,
        &mut variables,
        &mut present,
        &mut position,
        &mut cycles,
        events,
    );
    settle_turn(
        run, &locations, &clocks, &variables, present, position, cycles, answer,
    )
}

// A turn of an accepted table.
pub fn one_turn(s: &[u8], shape: Shape, run: Run, events: u32) -> Turned
    requires { Accepted s.now shape }
    ensures { turn_of result ≡ settled (run_of run) (model-turn (machine (read_automata s.now)) events (run_of run)) }
{
    with_index(s, shape, |first, next| {
        turn(s, shape, first, next, run, events)
    })
}
