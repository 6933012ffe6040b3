// Many cycles of an accepted set, in place on the run's arrays, as a run by value is copied (docs/SPEED.md, "A run lent and given back"): what is checked
// before a turn is checked once. Automata have theirs, of another run (see cycles.rt).
ghost use Rattle.std.specs.Prelude.{◌≡◌, ℕ, ◌+◌, ◌-◌, ◌≤◌, ◌<◌, T, length, get_or};
ghost use Rattle.model.specs.Limits.{most_charts};
ghost use Rattle.prelude.specs.Lists.{map_from};
ghost use Rattle.records.specs.Refusal.{val};
ghost use Rattle.model.specs.Outcome.{settled};
ghost use Rattle.model.specs.Runs.{Run as model-run, possible, checked, cycle as model-cycle};
ghost use Rattle.model.specs.ChartSet.{read_charts};
ghost use Rattle.model.specs.Charts.{charts as machine};
ghost use Rattle.machines.specs.Playing.{played, playing};
ghost use Rattle.chart_records.specs.Accepted.{Accepted};
ghost use Rattle.machines.specs.Worlds.{moment, run_in};
ghost use Rattle.chart_runs.specs.RunOf.{run_of, aged};
ghost use Rattle.charts.specs.EndedBy.{ran_to, ended_by};
ghost use Rattle.chart_steps.specs.Prepared.{Prepared};
ghost use Rattle.charts.specs.TurnOf.{after, finish, Ready};
ghost use Rattle.charts.specs.PlayedOf.{played_of};

use answers::{Reason, Stop};
use chart_records::Shape;
use chart_runs::{Run, before_turn, grow_ages, run_between_cycles};
use chart_steps::steps::turns_in_place;
use chart_steps::tables::{Tables, fill_tables, no_tables};
use machines::checks::events_given;
use machines::deeds::done_by;
use records::sizes::{Ages, MOST_CYCLES, Places, Variables};

// How many cycles were done, or why not even the first was, and the run after them.
#[derive(Clone, Copy)]
pub struct Played {
    pub answer: Result<u32, Stop>,
    pub run: Run,
}

// Time passes once the charts' turns are taken, whose events these are, unless one of them faulted.
fn time_after(charts: u16, ages: &mut Ages, events: u64) -> Result<(), Reason>
    requires { (charts ≤ most_charts) × (events ≤ 4_294_967_295 → (k : ℕ) → k < charts → get_or ages.old k 0 < 4_294_967_295) }
    ensures { ((q : model-run) → ran_to result q ≡ ended_by events q) × (events ≤ 4_294_967_295 → ages.new ≡ map_from 0 (aged charts) ages.old) × (4_294_967_295 < events → ages.new ≡ ages.old) }
{
    done_by(events)?;
    grow_ages(charts, ages);
    Ok(())
}

// The turns from a position up to time's. After a fault the places are as the turns before it left them.
fn cycle_or_fault(
    s: &[u8],
    shape: Shape,
    tables: &Tables,
    states: &mut Places,
    ages: &mut Ages,
    vars: &mut Variables,
    events: u32,
    position: u32,
    cycles: u32,
) -> Result<(), Reason>
    requires { Prepared s.now shape tables.now × Ready shape.charts (run_in states.old ages.old vars.old events (moment position cycles)) }
    ensures { ran_to result (run_in states.new ages.new vars.new 0 (moment 1 (cycles + 1))) ≡ after (machine (read_charts s.now)) (shape.charts + 2 - position) (run_in states.old ages.old vars.old events (moment position cycles)) }
{
    let mut chosen = None;
    let from = (position - 1) as u16;
    let after = turns_in_place(
        s,
        shape,
        tables,
        from,
        shape.charts,
        states,
        ages,
        vars,
        events,
        &mut chosen,
    );
    time_after(shape.charts, ages, after)
}

// A cycle of a run at position 1 that passed the checks: all its turns, or none.
fn cycle_or_none(
    s: &[u8],
    shape: Shape,
    tables: &Tables,
    states: &mut Places,
    ages: &mut Ages,
    vars: &mut Variables,
    events: u32,
    cycles: u32,
) -> Result<(), Reason>
    requires { Prepared s.now shape tables.now × (checked (machine (read_charts s.now)) events (run_in states.old ages.old vars.old 0 (moment 1 cycles)) ≡ val tt) }
    ensures cycles_after { finish (ran_to result (run_in states.new ages.new vars.new 0 (moment 1 (cycles + 1)))) ≡ model-cycle (machine (read_charts s.now)) events (run_in states.old ages.old vars.old 0 (moment 1 cycles)) }
    ensures states_unchanged { (w : Reason) → result ≡ Err w → (states.new ≡ states.old) × (ages.new ≡ ages.old) × (vars.new ≡ vars.old) }
{
    let states_before = *states;
    let ages_before = *ages;
    let vars_before = *vars;
    let done = cycle_or_fault(s, shape, tables, states, ages, vars, events, 1, cycles);
    if done.is_err() {
        *states = states_before;
        *ages = ages_before;
        *vars = vars_before;
    }
    done
}

// Cycles from a possible run at position 1, one for each mask, until one faults or none is left to do. Check 12 holds after each that is done, so it is not
// made again.
fn further_cycles(
    s: &[u8],
    shape: Shape,
    tables: &Tables,
    states: &mut Places,
    ages: &mut Ages,
    vars: &mut Variables,
    cycles: u32,
    masks: &[u32],
) -> u32
    requires { Prepared s.now shape tables.now × T (possible (machine (read_charts s.now)) (run_in states.old ages.old vars.old 0 (moment 1 cycles))) }
    ensures { ((played (machine (read_charts s.now)) masks.now (run_in states.old ages.old vars.old 0 (moment 1 cycles))).count ≡ result)
        × ((played (machine (read_charts s.now)) masks.now (run_in states.old ages.old vars.old 0 (moment 1 cycles))).run ≡ run_in states.new ages.new vars.new 0 (moment 1 (cycles + result))) }
{
    let mut done = cycles;
    for mask in masks {
        if done == MOST_CYCLES {
            return done - cycles;
        }
        match cycle_or_none(s, shape, tables, states, ages, vars, *mask, done) {
            Err(_) => return done - cycles,
            Ok(()) => done += 1,
        }
    }
    done - cycles
}

// The first cycle led to this run.
fn play_further(s: &[u8], shape: Shape, tables: &Tables, run: Run, masks: &[u32]) -> Played
    requires { Prepared s.now shape tables.now × T (possible (machine (read_charts s.now)) (run_of run)) × (run.position ≡ 1) }
    ensures { (result.answer ≡ Ok (1 + (played (machine (read_charts s.now)) masks.now (run_of run)).count))
        × (run_of result.run ≡ (played (machine (read_charts s.now)) masks.now (run_of run)).run) }
{
    let mut states = run.states;
    let mut ages = run.ages;
    let mut variables = run.variables;
    let cycles = run.cycles;
    let count = further_cycles(
        s,
        shape,
        tables,
        &mut states,
        &mut ages,
        &mut variables,
        cycles,
        masks,
    );
    Played {
        answer: Ok(1 + count),
        run: run_between_cycles(states, ages, variables, cycles + count),
    }
}

// The first cycle, of a run that passed the checks and has its events, and then the others.
fn play_from_first(s: &[u8], shape: Shape, tables: &Tables, run: Run, masks: &[u32]) -> Played
    requires { Prepared s.now shape tables.now × (0 < length masks.now) × (checked (machine (read_charts s.now)) (get_or masks.now 0 0) (run_of run) ≡ val tt) }
    ensures { played_of result ≡ settled (run_of run) (playing (machine (read_charts s.now)) masks.now (run_of run)) }
{
    let mut states = run.states;
    let mut ages = run.ages;
    let mut variables = run.variables;
    let events = events_given(masks[0], run.position, run.events);
    match cycle_or_fault(
        s,
        shape,
        tables,
        &mut states,
        &mut ages,
        &mut variables,
        events,
        run.position,
        run.cycles,
    ) {
        Err(w) => Played {
            answer: Err(Stop::Fault(w)),
            run,
        },
        Ok(()) => {
            let after = run_between_cycles(states, ages, variables, run.cycles + 1);
            play_further(s, shape, tables, after, &masks[1..])
        }
    }
}

// Cycles, one for each mask, until one is refused or faults: that is told only of the first.
fn play_with_tables(s: &[u8], shape: Shape, tables: &Tables, run: Run, masks: &[u32]) -> Played
    requires { Prepared s.now shape tables.now }
    ensures { played_of result ≡ settled (run_of run) (playing (machine (read_charts s.now)) masks.now (run_of run)) }
{
    if masks.is_empty() {
        return Played { answer: Ok(0), run };
    }
    match before_turn(s, shape, run, masks[0]) {
        Err(w) => Played {
            answer: Err(Stop::Refused(w)),
            run,
        },
        Ok(()) => play_from_first(s, shape, tables, run, masks),
    }
}

// The tables are made once for all cycles.
pub fn play_in_place(s: &[u8], shape: Shape, run: Run, masks: &[u32]) -> Played
    requires { Accepted s.now shape }
    ensures { played_of result ≡ settled (run_of run) (playing (machine (read_charts s.now)) masks.now (run_of run)) }
{
    let mut tables = no_tables();
    fill_tables(s, shape, &mut tables);
    play_with_tables(s, shape, &tables, run, masks)
}
