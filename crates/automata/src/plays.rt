// Many cycles of automata, the run checked once, in place on its arrays. Beside those of charts, as turns are.
ghost use Rattle.std.specs.Prelude.{◌≡◌};
ghost use Rattle.model.specs.Outcome.{settled};
ghost use Rattle.model.specs.AutomataTable.{read_automata};
ghost use Rattle.model.specs.Automata.{automata as machine};
ghost use Rattle.machines.specs.Playing.{played, playing};
ghost use Rattle.automata_records.specs.Accepted.{Accepted};
ghost use Rattle.machines.specs.Worlds.{moment, run_in};
ghost use Rattle.automata.specs.RunOf.{run_of, HasLimits};
ghost use Rattle.automata_steps.specs.Prepared.{Prepared};
ghost use Rattle.automata.specs.PlayedOf.{BetweenCycles, PlayedTo, played_of};

use super::cycles::{cycle_after_checks, cycle_or_none};
use super::runs::{Limits, Run, limits_of, run_in};
use answers::Stop;
use automata_records::Shape;
use automata_steps::index::with_index;
use records::sizes::{Clocks, MOST_CYCLES, Places, TableHeads, Variables};

#[derive(Clone, Copy)]
pub struct Played {
    pub answer: Result<u32, Stop>,
    pub run: Run,
}

// Cycles from position 1, which are told of by their number, and the run after them.
#[derive(Clone, Copy)]
pub struct Rest {
    pub count: u32,
    pub run: Run,
}

fn further_to(
    locations: Places,
    clocks: Clocks,
    variables: Variables,
    cycles: u32,
    count: u32,
) -> Rest
    ensures { (result.count ≡ count) × (run_of result.run ≡ run_in locations clocks variables 0 (moment 1 cycles)) }
{
    let run = run_in(&locations, &clocks, &variables, 0, 1, cycles);
    Rest { count, run }
}

// Cycles in place, one for each mask, until one faults or 1,000,000 are done. A cycle that is done leaves a possible run, so that only the count is asked.
fn further_cycles(
    s: &[u8],
    shape: Shape,
    first: &TableHeads,
    next: &[u16],
    limits: &Limits,
    run: Run,
    masks: &[u32],
) -> Rest
    requires prepared { Prepared s.now shape first.now next.now }
    requires has_limits { HasLimits s.now shape limits.now }
    requires between_cycles { BetweenCycles (machine (read_automata s.now)) (run_of run) }
    ensures { PlayedTo (played (machine (read_automata s.now)) masks.now (run_of run)) result.count (run_of result.run) }
{
    let mut locations = run.locations;
    let mut clocks = run.clocks;
    let mut variables = run.variables;
    let mut cycles = run.cycles;
    for (k, events) in masks.iter().enumerate() {
        if cycles == MOST_CYCLES {
            return further_to(locations, clocks, variables, cycles, k as u32);
        }
        let done = cycle_or_none(
            s,
            shape,
            first,
            next,
            limits,
            &mut locations,
            &mut clocks,
            &mut variables,
            *events,
            1,
            cycles,
        );
        if done.is_err() {
            return further_to(locations, clocks, variables, cycles, k as u32);
        }
        cycles += 1;
    }
    further_to(locations, clocks, variables, cycles, masks.len() as u32)
}

// Cycles of an accepted table, one for each mask, until one is refused or faults. That is told only of the first.
fn play_with_index(
    s: &[u8],
    shape: Shape,
    first: &TableHeads,
    next: &[u16],
    limits: &Limits,
    run: Run,
    masks: &[u32],
) -> Played
    requires prepared { Prepared s.now shape first.now next.now }
    requires has_limits { HasLimits s.now shape limits.now }
    ensures { played_of result ≡ settled (run_of run) (playing (machine (read_automata s.now)) masks.now (run_of run)) }
{
    if masks.is_empty() {
        return Played { answer: Ok(0), run };
    }
    let mut locations = run.locations;
    let mut clocks = run.clocks;
    let mut variables = run.variables;
    match cycle_after_checks(
        s,
        shape,
        first,
        next,
        limits,
        &mut locations,
        &mut clocks,
        &mut variables,
        run.events,
        run.position,
        run.cycles,
        masks[0],
    ) {
        Ok(()) => {
            let after = run_in(&locations, &clocks, &variables, 0, 1, run.cycles + 1);
            let rest = further_cycles(s, shape, first, next, limits, after, &masks[1..]);
            let last = rest.run;
            Played {
                answer: Ok(rest.count + 1),
                run: last,
            }
        }
        Err(w) => Played {
            answer: Err(w),
            run,
        },
    }
}

// Many cycles of an accepted table.
pub fn play_in_place(s: &[u8], shape: Shape, run: Run, masks: &[u32]) -> Played
    requires { Accepted s.now shape }
    ensures { played_of result ≡ settled (run_of run) (playing (machine (read_automata s.now)) masks.now (run_of run)) }
{
    let limits = limits_of(s, shape);
    with_index(s, shape, |first, next| {
        play_with_index(s, shape, first, next, &limits, run, masks)
    })
}
