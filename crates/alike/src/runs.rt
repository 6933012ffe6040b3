// Whether a set's run and its twin's are alike.
ghost use Rattle.std.specs.Prelude.{◌≡◌, ◌≤◌, ◌<◌};
ghost use Rattle.model.specs.Limits.{most_charts};
ghost use Rattle.model.specs.Correspondence.{clock_for};
ghost use Rattle.automata_records.specs.Accepted.{Accepted};
ghost use Rattle.timings.specs.Growth.{timing_if};
ghost use Rattle.automata.specs.RunOf as automata-run;
ghost use Rattle.chart_runs.specs.RunOf as charts-run;
ghost use Rattle.alike.specs.Alike.{variables_alike, places_alike, clock_alike, literal_alike, timers_alike, runs_alike};

use automata_records::Shape;
use automata_records::fields::{
    LiteralTrigger, automaton_of, literal_edge, literal_trigger_of, source_of,
};
use automata_steps::fields::{is_after, ticks_of};
use records::sizes::{Ages, Clocks, Places, Variables};
use timings::top;

// `==`, whose contract says what the model compares, place by place.
fn variables_alike(variables: Variables, others: Variables) -> bool
    ensures { result ≡ variables_alike variables others }
{
    variables == others
}

fn places_alike(charts: u16, states: Places, locations: Places) -> bool
    requires { charts ≤ most_charts }
    ensures { result ≡ places_alike charts states locations }
{
    let n = charts as usize;
    states[..n] == locations[..n]
}

// Where a clock stands by the age of its state.
fn clock_for(after: bool, ticks: u16, age: u32) -> u32
    requires { 1 ≤ ticks }
    ensures { result ≡ clock_for (timing_if after) ticks age }
{
    if after {
        return age.min(top(ticks) as u32);
    }
    if age == 0 {
        return 0;
    }
    (age - 1) % (ticks as u32) + 1
}

fn clock_alike(t: &[u8], shape: Shape, clocks: Clocks, age: u32, k: u16) -> bool
    requires { Accepted t.now shape × (k < shape.clocks) }
    ensures { result ≡ clock_alike t.now shape clocks age k }
{
    let i = k as usize;
    let x = clocks[i] as u32;
    x == clock_for(is_after(t, shape, k), ticks_of(t, shape, k), age)
}

// The clock that a literal reads belongs to the location that the literal's edge leaves.
fn literal_alike(
    t: &[u8],
    shape: Shape,
    ages: Ages,
    locations: Places,
    clocks: Clocks,
    l: u16,
) -> bool
    requires { Accepted t.now shape × (l < shape.literals) }
    ensures { result ≡ literal_alike t.now shape ages locations clocks l }
{
    let e = literal_edge(t, shape, l);
    let a = automaton_of(t, shape, e) as usize;
    if locations[a] != source_of(t, shape, e) {
        return true;
    }
    match literal_trigger_of(t, shape, l) {
        LiteralTrigger::Always | LiteralTrigger::Event(_) => true,
        LiteralTrigger::Clock(k) => clock_alike(t, shape, clocks, ages[a], k),
    }
}

fn timers_alike(t: &[u8], shape: Shape, ages: Ages, locations: Places, clocks: Clocks) -> bool
    requires { Accepted t.now shape }
    ensures { result ≡ timers_alike t.now shape ages locations clocks }
{
    (0..shape.literals).all(|l| literal_alike(t, shape, ages, locations, clocks, l))
}

pub fn runs_alike(t: &[u8], shape: Shape, run: chart_runs::Run, twin: automata::runs::Run) -> bool
    requires { Accepted t.now shape }
    ensures { result ≡ runs_alike t.now shape (charts-run.run_of run) (automata-run.run_of twin) }
{
    let variables = run.variables;
    let others = twin.variables;
    let states = run.states;
    let locations = twin.locations;
    let ages = run.ages;
    let clocks = twin.clocks;
    variables_alike(variables, others)
        & (run.events == twin.events)
        & (run.position == twin.position)
        & (run.cycles == twin.cycles)
        & places_alike(shape.automata, states, locations)
        & timers_alike(t, shape, ages, locations, clocks)
}
