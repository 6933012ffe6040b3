// Runs of automata: the fresh run, what is checked before a turn, and time. Beside those of charts, as turns are.
ghost use Rattle.std.specs.Prelude.{◌≡◌, ◌≤◌, ◌<◌, leb, length, get_or, replicate};
ghost use Rattle.model.specs.Limits.{most_clocks};
ghost use Rattle.prelude.specs.Lists.{all, upto, map_from};
ghost use Rattle.model.specs.Runs.{start as started, possible, checked, rest_zero};
ghost use Rattle.model.specs.AutomataTable.{read_automata};
ghost use Rattle.model.specs.Automata.{automata as machine, grown};
ghost use Rattle.timings.specs.Growth.{most_top};
ghost use Rattle.automata_records.specs.Shape.{IsShape};
ghost use Rattle.automata_records.specs.Places.{clock_at};
ghost use Rattle.machines.specs.Checks.{before_of};
ghost use Rattle.automata_records.specs.Accepted.{Accepted};
ghost use Rattle.machines.specs.Worlds.{moment, run_in};
ghost use Rattle.automata.specs.RunOf.{run_of, Sized, top_at, grown_at, ClocksPossible, turn_at, cap_at, HasLimits};

use automata_records::Shape;
use automata_steps::fields::{is_after, ticks_of};
use automata_steps::values::values_of;
use machines::checks::{decide, initial_places, shared_possible};
use machines::values::start_values;
use records::refusals::Refusal;
use records::sizes::{CLOCKS, Clocks, Places, Variables};
use timings::{cap_for, grown_to, top, turn_for};

// A run: of each automaton its present location, the clocks, the variables, the events present, the position in the cycle, the cycles done.
#[repr(C)]
#[derive(Clone, Copy)]
pub struct Run {
    pub locations: Places,
    pub clocks: Clocks,
    pub variables: Variables,
    pub events: u32,
    pub position: u32,
    pub cycles: u32,
}

// A run by its places.
pub fn run_in(
    locations: &Places,
    clocks: &Clocks,
    vars: &Variables,
    events: u32,
    position: u32,
    cycles: u32,
) -> Run
    ensures { run_of result ≡ run_in locations.now clocks.now vars.now events (moment position cycles) }
{
    let locations = *locations;
    let clocks = *clocks;
    let variables = *vars;
    Run {
        locations,
        clocks,
        variables,
        events,
        position,
        cycles,
    }
}

// The fresh run of a table.
pub fn start(s: &[u8], shape: Shape) -> Run
    requires { IsShape s.now shape }
    ensures { run_of result ≡ started (machine (read_automata s.now)) }
{
    let locations = initial_places(s, shape.automata);
    let clocks = [0u16; CLOCKS];
    let values = values_of(shape);
    let variables = start_values(s, values);
    Run {
        locations,
        clocks,
        variables,
        events: 0,
        position: 1,
        cycles: 0,
    }
}

fn clock_possible(s: &[u8], shape: Shape, k: u16, x: u16) -> bool
    requires { IsShape s.now shape × (k < shape.clocks) }
    ensures { result ≡ leb x (top_at s.now shape k) }
{
    x <= top(ticks_of(s, shape, k))
}

// No clock is over its top. All are read, without a way out of the loop.
fn clocks_possible(s: &[u8], shape: Shape, clocks: &Clocks) -> bool
    requires { IsShape s.now shape }
    ensures { result ≡ all (λ k. leb (get_or clocks.now k 0) (top_at s.now shape k)) (upto shape.clocks) }
{
    let mut possible = true;
    for k in 0..shape.clocks {
        let i = k as usize;
        possible = possible & clock_possible(s, shape, k, clocks[i]);
    }
    possible
}

// All are read, without a way out of the loop, so that many are compared at once.
fn clocks_unused(count: u16, clocks: &Clocks) -> bool
    requires { length clocks.now ≡ most_clocks }
    ensures { result ≡ rest_zero count clocks.now }
{
    let mut unused = true;
    for k in count as usize..CLOCKS {
        unused = unused & (clocks[k] == 0);
    }
    unused
}

// Whether a run is possible for a table.
fn is_possible(
    s: &[u8],
    shape: Shape,
    locations: &Places,
    clocks: &Clocks,
    vars: &Variables,
    events: u32,
    position: u32,
    cycles: u32,
) -> bool
    requires { IsShape s.now shape × Sized locations.now clocks.now vars.now }
    ensures { result ≡ possible (machine (read_automata s.now)) (run_in locations.now clocks.now vars.now events (moment position cycles)) }
{
    let values = values_of(shape);
    let shared = shared_possible(
        s,
        shape.automata,
        shape.locations,
        values,
        *locations,
        *vars,
        events,
        position,
        cycles,
    );
    shared & clocks_possible(s, shape, clocks) & clocks_unused(shape.clocks, clocks)
}

// What is checked before a turn, or a cycle, of a run by its places.
pub fn before_turn(
    s: &[u8],
    shape: Shape,
    locations: &Places,
    clocks: &Clocks,
    vars: &Variables,
    present: u32,
    position: u32,
    cycles: u32,
    events: u32,
) -> Result<(), Refusal>
    requires { IsShape s.now shape × Sized locations.now clocks.now vars.now }
    ensures { before_of result ≡ checked (machine (read_automata s.now)) events (run_in locations.now clocks.now vars.now present (moment position cycles)) }
{
    let possible = is_possible(s, shape, locations, clocks, vars, present, position, cycles);
    decide(possible, events, position, cycles)
}

// Of each clock where it turns and where it stops, read once for many cycles; 65,535, which is none, behind the table's clocks.
#[derive(Drop)]
pub struct Limits {
    pub turn: Clocks,
    pub cap: Clocks,
}

pub fn limits_of(s: &[u8], shape: Shape) -> Limits
    requires { Accepted s.now shape }
    ensures written { (result.turn ≡ map_from 0 (turn_at s.now shape) (replicate most_clocks 65535)) × (result.cap ≡ map_from 0 (cap_at s.now shape) (replicate most_clocks 65535)) }
    ensures has_limits { HasLimits s.now shape result }
{
    let mut limits = Limits {
        turn: [65535u16; CLOCKS],
        cap: [65535u16; CLOCKS],
    };
    for k in 0..shape.clocks {
        let i = k as usize;
        limits.turn[i] = turn_for(is_after(s, shape, k), ticks_of(s, shape, k));
        limits.cap[i] = cap_for(is_after(s, shape, k), ticks_of(s, shape, k));
    }
    limits
}

fn clock_grown(s: &[u8], shape: Shape, limits: &Limits, k: u16, x: u16) -> u16
    requires { Accepted s.now shape × HasLimits s.now shape limits.now × (k < shape.clocks) × (x ≤ most_top) }
    ensures { result ≡ grown (clock_at s.now shape k).timing (clock_at s.now shape k).ticks x }
{
    let i = k as usize;
    grown_to(limits.turn[i], limits.cap[i], x)
}

// Each clock in use grows.
pub fn grow(s: &[u8], shape: Shape, limits: &Limits, clocks: &mut Clocks)
    requires accepted { Accepted s.now shape × HasLimits s.now shape limits.now }
    requires clocks_len { length clocks.old ≡ most_clocks }
    requires clocks_possible { ClocksPossible shape.clocks clocks.old }
    ensures { clocks.new ≡ map_from 0 (grown_at s.now shape) clocks.old }
{
    for k in 0..shape.clocks {
        let i = k as usize;
        clocks[i] = clock_grown(s, shape, limits, k, clocks[i]);
    }
}

// Each clock in use grows, its limits read for this once.
pub fn pass_time(s: &[u8], shape: Shape, clocks: &mut Clocks)
    requires accepted { Accepted s.now shape }
    requires clocks_len { length clocks.old ≡ most_clocks }
    requires clocks_possible { ClocksPossible shape.clocks clocks.old }
    ensures { clocks.new ≡ map_from 0 (grown_at s.now shape) clocks.old }
{
    let limits = limits_of(s, shape);
    grow(s, shape, &limits, clocks);
}
