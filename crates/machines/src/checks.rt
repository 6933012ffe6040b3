// What is checked before a turn, but for the timers; and the places of a fresh run.
ghost use Rattle.std.specs.Prelude.{◌≡◌, cond, not, ◌&&◌, ◌||◌, [], ◌+◌, ◌≤◌, leb, ltb, eqb, drop};
ghost use Rattle.model.specs.Limits.{most_charts};
ghost use Rattle.prelude.specs.Lists.{all, padded};
ghost use Rattle.model.specs.Runs.{in_bounds, places_possible, variables_possible, rest_zero_values, checked_by};
ghost use Rattle.machines.specs.Files.{initials_in, home_in, homes_in, variable_in, variables_in, HasValues};
ghost use Rattle.machines.specs.Worlds.{moment, world_in};
ghost use Rattle.machines.specs.Checks.{counts_possible, shared_possible, before_of};

use super::values::{Values, highest_of, lowest_of};
use records::refusals::Refusal;
use records::sizes::{CHARTS, LAST_CYCLE, MOST_CYCLES, Places, VARIABLES, Variables};
use records::{byte_at, u16_at};

fn position_possible(parts: u16, position: u32) -> bool
    requires { parts ≤ most_charts }
    ensures { result ≡ (leb 1 position && leb position (parts + 1)) }
{
    (1 <= position) & (position <= (parts as u32) + 1)
}

// At position 1 the last cycle may be done; past it one is under way.
fn count_possible(position: u32, cycles: u32) -> bool
    ensures { result ≡ leb cycles (cond (eqb position 1) 1_000_000 999_999) }
{
    if position == 1 {
        cycles <= MOST_CYCLES
    } else {
        cycles <= LAST_CYCLE
    }
}

fn events_possible(position: u32, events: u32) -> bool
    ensures { result ≡ (not (eqb position 1) || eqb events 0) }
{
    (position != 1) | (events == 0)
}

// What can be said of position, count and events without the file.
fn counts_possible(parts: u16, events: u32, position: u32, cycles: u32) -> bool
    requires { parts ≤ most_charts }
    ensures { result ≡ counts_possible parts (world_in [] events (moment position cycles)) }
{
    position_possible(parts, position)
        & count_possible(position, cycles)
        & events_possible(position, events)
}

// Places behind those that are used are empty.
pub fn unused<T: Copy + PartialEq>(used: u16, places: &[T], empty: T) -> bool
    ensures { result ≡ all (λ place. T.eq place empty) (drop used places.now) }
{
    places
        .iter()
        .skip(used as usize)
        .all(|place| *place == empty)
}

// All are looked at, so that the compiler takes several at once.
fn variables_unused(count: u16, variables: Variables) -> bool
    ensures { result ≡ rest_zero_values count variables }
{
    let mut unused = true;
    for k in (count as usize)..VARIABLES {
        unused = unused & (variables[k] == 0);
    }
    unused
}

fn place_possible(s: &[u8], parts: u16, places: u16, part: u16, place: u16) -> bool
    ensures { result ≡ (ltb place places && eqb (home_in s.now parts place) part) }
{
    let n = (parts as usize) + (place as usize);
    (place < places) & ((byte_at(s, 16 * n + 1) as u16) == part)
}

// Each part is in a place of its own.
fn places_possible(s: &[u8], parts: u16, places: u16, at: Places) -> bool
    requires { parts ≤ most_charts }
    ensures { result ≡ places_possible parts (homes_in s.now parts places) at }
{
    (0..parts).all(|c| place_possible(s, parts, places, c, at[c as usize]))
}

fn value_possible(s: &[u8], values: Values, v: u16, value: i16) -> bool
    requires { HasValues s.now values }
    ensures { result ≡ in_bounds (variable_in s.now values v) value }
{
    (lowest_of(s, values, v) <= value) & (value <= highest_of(s, values, v))
}

// Each variable is within its bounds.
fn variables_possible(s: &[u8], values: Values, variables: Variables) -> bool
    requires { HasValues s.now values }
    ensures { result ≡ variables_possible (variables_in s.now values) variables }
{
    (0..values.variables).all(|v| value_possible(s, values, v, variables[v as usize]))
}

// Whether a run is possible for a file of so many parts and places, but for its timers.
pub fn shared_possible(
    s: &[u8],
    parts: u16,
    places: u16,
    values: Values,
    at: Places,
    variables: Variables,
    events: u32,
    position: u32,
    cycles: u32,
) -> bool
    requires parts_le_most_charts { parts ≤ most_charts }
    requires has_values { HasValues s.now values }
    ensures { result ≡ shared_possible parts (homes_in s.now parts places) (variables_in s.now values) at (world_in variables events (moment position cycles)) }
{
    places_possible(s, parts, places, at)
        & variables_possible(s, values, variables)
        & counts_possible(parts, events, position, cycles)
        & unused(parts, &at, 0)
        & variables_unused(values.variables, variables)
}

// What is checked before a turn, or a cycle: the run, where events are given, and that a cycle is left to do.
pub fn decide(possible: bool, events: u32, position: u32, cycles: u32) -> Result<(), Refusal>
    ensures { before_of result ≡ checked_by possible events position cycles }
{
    if !possible {
        return Err(Refusal::ImpossibleRun);
    }
    if (position != 1) & (events != 0) {
        return Err(Refusal::MisplacedEvents);
    }
    if (position == 1) & (cycles == MOST_CYCLES) {
        return Err(Refusal::CyclesDone);
    }
    Ok(())
}

// Input events are given at position 1.
pub fn events_given(events: u32, position: u32, present: u32) -> u32
    ensures { result ≡ cond (eqb position 1) events present }
{
    if position == 1 { events } else { present }
}

// Of each part its initial place.
pub fn initial_places(s: &[u8], parts: u16) -> Places
    requires { parts ≤ most_charts }
    ensures { result ≡ padded most_charts 0 (initials_in s.now parts) }
{
    let mut at = [0u16; CHARTS];
    for c in 0..(parts as usize) {
        at[c] = u16_at(s, 16 * c + 2);
    }
    at
}
