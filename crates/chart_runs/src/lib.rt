// Runs of chart sets: the fresh run, what is checked before a turn, and time. Those of automata are apart: the C interface has a struct for each.
#![tactic(auto)]

ghost use Rattle.std.specs.Prelude.{◌≡◌, ℕ, ◌≤◌, ◌<◌, leb, length, get_or};
ghost use Rattle.model.specs.Limits.{most_charts};
ghost use Rattle.prelude.specs.Lists.{all, upto, map_from};
ghost use Rattle.model.specs.Runs.{start as started, possible, checked, give as model-give, time_passed};
ghost use Rattle.model.specs.ChartSet.{ChartSet, read_charts};
ghost use Rattle.model.specs.Charts.{charts as machine};
ghost use Rattle.chart_records.specs.Shape.{IsShape};
ghost use Rattle.machines.specs.Checks.{before_of};
ghost use Rattle.machines.specs.Worlds.{moment, run_in};
ghost use Rattle.chart_runs.specs.RunOf.{run_of, AgesPossible, aged};

use chart_records::Shape;
use chart_steps::values::values_of;
use machines::checks::{decide, events_given, initial_places, shared_possible, unused};
use machines::values::start_values;
use records::refusals::Refusal;
use records::sizes::{Ages, CHARTS, Places, Variables};

// A run: of each chart its present state and that state's age, the variables, the events present, the position in the cycle, the cycles done.
#[repr(C)]
#[derive(Clone, Copy)]
pub struct Run {
    pub states: Places,
    pub ages: Ages,
    pub variables: Variables,
    pub events: u32,
    pub position: u32,
    pub cycles: u32,
}

// No age is over the count of cycles.
fn ages_possible(charts: u16, ages: Ages, cycles: u32) -> bool
    requires { charts ≤ most_charts }
    ensures { result ≡ all (λ k. leb (get_or ages k 0) cycles) (upto charts) }
{
    (0..charts).all(|k| ages[k as usize] <= cycles)
}

// The fresh run of a set.
pub fn start(s: &[u8], shape: Shape) -> Run
    requires { IsShape s.now shape }
    ensures { run_of result ≡ started (machine (read_charts s.now)) }
{
    let states = initial_places(s, shape.charts);
    let ages = [0u32; CHARTS];
    let values = values_of(shape);
    let variables = start_values(s, values);
    Run {
        states,
        ages,
        variables,
        events: 0,
        position: 1,
        cycles: 0,
    }
}

// Whether a run is possible for a set.
fn is_possible(s: &[u8], shape: Shape, run: Run) -> bool
    requires { IsShape s.now shape }
    ensures { result ≡ possible (machine (read_charts s.now)) (run_of run) }
{
    let states = run.states;
    let ages = run.ages;
    let variables = run.variables;
    let values = values_of(shape);
    let shared = shared_possible(
        s,
        shape.charts,
        shape.states,
        values,
        states,
        variables,
        run.events,
        run.position,
        run.cycles,
    );
    shared & ages_possible(shape.charts, ages, run.cycles) & unused(shape.charts, &ages, 0)
}

// What is checked before a turn, or a cycle.
pub fn before_turn(s: &[u8], shape: Shape, run: Run, events: u32) -> Result<(), Refusal>
    requires { IsShape s.now shape }
    ensures { before_of result ≡ checked (machine (read_charts s.now)) events (run_of run) }
{
    let possible = is_possible(s, shape, run);
    decide(possible, events, run.position, run.cycles)
}

// Input events are given at position 1.
pub fn give(mut run: Run, events: u32) -> Run
    ensures { run_of result ≡ model-give events (run_of run) }
{
    run.events = events_given(events, run.position, run.events);
    run
}

// In place: a copy of the ages would be read back wider than it was written.
pub fn grow_ages(charts: u16, ages: &mut Ages)
    requires charts_le_most_charts { charts ≤ most_charts }
    requires by_index { (k : ℕ) → k < charts → get_or ages.old k 0 < 4294967295 }
    ensures { ages.new ≡ map_from 0 (aged charts) ages.old }
{
    for k in 0..(charts as usize) {
        ages[k] += 1;
    }
}

// Position n + 1 empties the events and adds 1 to each chart's age and to the count of cycles.
pub fn time_passed(charts: u16, mut run: Run) -> Run
    requires charts_le_most_charts { charts ≤ most_charts }
    requires ages_possible { AgesPossible charts (run_of run) }
    ensures { (cs : ChartSet) → length cs.initial ≡ charts → run_of result ≡ time_passed (machine cs) (run_of run) }
{
    let mut ages = run.ages;
    grow_ages(charts, &mut ages);
    run.ages = ages;
    run.events = 0;
    run.position = 1;
    run.cycles += 1;
    run
}

// The run of these places between two cycles.
pub fn run_between_cycles(states: Places, ages: Ages, variables: Variables, cycles: u32) -> Run
    ensures { run_of result ≡ run_in states ages variables 0 (moment 1 cycles) }
{
    Run {
        states,
        ages,
        variables,
        events: 0,
        position: 1,
        cycles,
    }
}
