// Refusal 7: transitions inside charts, initial states, priorities, and at most eight actions an owner.
ghost use Rattle.std.specs.Prelude.{◌≡◌, true, cond, ◌&&◌, map, ◌++◌, ◌+◌, ◌*◌, ◌≤◌, ◌<◌, ltb, length, get_or};
ghost use Rattle.model.specs.Limits.{most_owned};
ghost use Rattle.prelude.specs.Lists.{all, upto};
ghost use Rattle.records.specs.Bytes.{records};
ghost use Rattle.expressions.specs.Uses.{add_uses};
ghost use Rattle.model.specs.ChartSet.{read_charts};
ghost use Rattle.model.specs.Owned.{home};
ghost use Rattle.model.specs.ChartFile as file;
ghost use Rattle.chart_records.specs.Shape.{IsShape};
ghost use Rattle.chart_records.specs.Places.{initial_at, transition_at};
ghost use Rattle.chart_checks.specs.Names.{initial_named};
ghost use Rattle.chart_files.specs.Tallies.{add_one, none_above, tally};
ghost use Rattle.chart_files.specs.Structure.{inside_chart, is_free, transition_fits_initials, action_fits_initials, left_once, source_at, pair_at, owner_at};

use chart_records::Shape;
use chart_records::fields::{
    Trigger, guard_of, home_of, initial_of, owner_of, place_of, priority_of, source_of, target_of,
    trigger_of,
};
use expressions::sorts::add_use;
use records::byte_at;
use records::sizes::{OWNED, PRIORITIES, STATES, TRANSITIONS};

// The chart of a state; a number that names no state has chart 0.
fn chart_of(s: &[u8], shape: Shape, state: u16) -> u8
    requires { IsShape s.now shape }
    ensures { result ≡ home (read_charts s.now).homes state }
{
    if state < shape.states {
        home_of(s, shape, state)
    } else {
        0
    }
}

// The source and the target are of one chart.
fn inside_chart(s: &[u8], shape: Shape, t: u16) -> bool
    requires { IsShape s.now shape }
    ensures { result ≡ inside_chart s.now shape t }
{
    let from = chart_of(s, shape, source_of(s, shape, t));
    let to = chart_of(s, shape, target_of(s, shape, t));
    from == to
}

fn inside_charts(s: &[u8], shape: Shape) -> bool
    requires { IsShape s.now shape }
    ensures { result ≡ file.inside_charts (read_charts s.now) }
{
    (0..shape.transitions).all(|t| inside_chart(s, shape, t))
}

// No guard.
fn free(s: &[u8], shape: Shape, t: u16) -> bool
    ensures { result ≡ is_free (transition_at s.now shape t).guard }
{
    guard_of(s, shape, t).is_none()
}

// Neither trigger nor guard.
fn unconditional(s: &[u8], shape: Shape, t: u16) -> bool
    ensures { result ≡ file.unconditional (transition_at s.now shape t).trigger (transition_at s.now shape t).guard }
{
    matches!(trigger_of(s, shape, t), Trigger::Always) && free(s, shape, t)
}

// How many charts have each state as their initial one, up to 2; and how many transitions leave it.
fn count_initials(s: &[u8], shape: Shape, initial: &mut [u8])
    ensures { initial.new ≡ add_uses initial.old (map (initial_at s.now shape) (upto shape.charts)) }
{
    for c in 0..shape.charts {
        add_use(initial, initial_of(s, c));
    }
}

fn count_sources(s: &[u8], shape: Shape, left: &mut [u8])
    ensures { left.new ≡ add_uses left.old (map (source_at s.now shape) (upto shape.transitions)) }
{
    for t in 0..shape.transitions {
        add_use(left, source_of(s, shape, t));
    }
}

// A chart's initial state is one of its own, and is left once.
fn left_once(s: &[u8], shape: Shape, left: &[u8], c: u16) -> bool
    requires { IsShape s.now shape }
    ensures { result ≡ left_once s.now shape left.now c }
{
    let state = initial_of(s, c);
    let home = chart_of(s, shape, state) as u16;
    (home == c) & (byte_at(left, state as usize) == 1)
}

fn all_left_once(s: &[u8], shape: Shape, left: &[u8]) -> bool
    requires { IsShape s.now shape }
    ensures { result ≡ all (left_once s.now shape left.now) (upto shape.charts) }
{
    (0..shape.charts).all(|c| left_once(s, shape, left, c))
}

// A transition does not enter an initial state, and leaves one, if it does, unconditionally.
fn transition_fits_initials(s: &[u8], shape: Shape, initial: &[u8], t: u16) -> bool
    ensures { result ≡ transition_fits_initials s.now shape initial.now t }
{
    let target = byte_at(initial, target_of(s, shape, t) as usize);
    let source = byte_at(initial, source_of(s, shape, t) as usize);
    (target == 0) & ((source == 0) | unconditional(s, shape, t))
}

fn transitions_fit_initials(s: &[u8], shape: Shape, initial: &[u8]) -> bool
    ensures { result ≡ all (transition_fits_initials s.now shape initial.now) (upto shape.transitions) }
{
    (0..shape.transitions).all(|t| transition_fits_initials(s, shape, initial, t))
}

// Action i is neither an entry nor an exit action of an initial state.
fn action_fits_initials(s: &[u8], shape: Shape, initial: &[u8], i: u16) -> bool
    ensures { result ≡ action_fits_initials s.now shape initial.now i }
{
    let place = place_of(s, shape, i);
    let owner = byte_at(initial, owner_of(s, shape, i) as usize);
    (owner == 0) | !((1 <= place) & (place <= 2))
}

fn actions_fit_initials(s: &[u8], shape: Shape, initial: &[u8]) -> bool
    ensures { result ≡ all (action_fits_initials s.now shape initial.now) (upto shape.actions) }
{
    (0..shape.actions).all(|i| action_fits_initials(s, shape, initial, i))
}

// An initial state is one of its chart's, is left once and unconditionally, is never entered, and does nothing on entry or exit: all charts at once.
fn initials_fit(s: &[u8], shape: Shape) -> bool
    requires { IsShape s.now shape × (all (initial_named s.now shape) (upto shape.charts) ≡ true) }
    ensures { result ≡ all (file.initial_fits (read_charts s.now)) (upto shape.charts) }
{
    let mut initial = [0u8; STATES];
    let mut left = [0u8; STATES];
    count_initials(s, shape, &mut initial);
    count_sources(s, shape, &mut left);
    all_left_once(s, shape, &left)
        & transitions_fit_initials(s, shape, &initial)
        & actions_fit_initials(s, shape, &initial)
}

// One more at place k, unless it has as many as it may. A place past the end is none.
fn count_within(counts: &mut [u8], k: usize, most: u8) -> bool
    requires { 0 < most }
    ensures { (result ≡ ltb (get_or counts.old k 0) most) × (counts.new ≡ cond result (add_one counts.old k) counts.old) }
{
    if counts.len() <= k {
        return true;
    }
    let n = counts[k];
    if n < most {
        counts[k] = n + 1;
        return true;
    }
    false
}

// The number of a transition's source with its priority: 16 for each state.
fn pair(s: &[u8], shape: Shape, t: u16) -> usize
    requires { 1 ≤ (transition_at s.now shape t).priority }
    ensures { result ≡ pair_at s.now shape t }
{
    let source = source_of(s, shape, t) as usize;
    let priority = priority_of(s, shape, t) as usize;
    16 * source + (priority - 1)
}

// No pair comes twice, from what is seen on. Each is written down on the way, so that `all` would need a closure that changes what it borrows.
fn pairs_within(s: &[u8], shape: Shape, seen: &mut [u8]) -> bool
    requires { IsShape s.now shape × (all file.in_code (records s.now) ≡ true) }
    ensures { (result ≡ none_above 1 seen.old (map (pair_at s.now shape) (upto shape.transitions))) × (seen.new ≡ tally 1 seen.old (map (pair_at s.now shape) (upto shape.transitions))) }
{
    for t in 0..shape.transitions {
        if !count_within(seen, pair(s, shape, t), 1) {
            return false;
        }
    }
    true
}

fn priorities_differ(s: &[u8], shape: Shape) -> bool
    requires { IsShape s.now shape × (all file.in_code (records s.now) ≡ true) }
    ensures { result ≡ all (file.priorities_differ (read_charts s.now)) (upto (length (read_charts s.now).homes)) }
{
    let mut seen = [0u8; STATES * PRIORITIES];
    let n = 16 * (shape.states as usize);
    pairs_within(s, shape, &mut seen[..n])
}

// The number of action i's owner: the states, and the transitions behind them.
fn owner_at(s: &[u8], shape: Shape, i: u16) -> usize
    ensures { result ≡ owner_at s.now shape i }
{
    let owner = owner_of(s, shape, i) as usize;
    if place_of(s, shape, i) == 3 {
        (shape.states as usize) + owner
    } else {
        owner
    }
}

// No owner comes more than eight times, from what is counted on, as pairs are.
fn owners_within(s: &[u8], shape: Shape, counts: &mut [u8]) -> bool
    ensures { (result ≡ none_above most_owned counts.old (map (owner_at s.now shape) (upto shape.actions))) × (counts.new ≡ tally most_owned counts.old (map (owner_at s.now shape) (upto shape.actions))) }
{
    for i in 0..shape.actions {
        if !count_within(counts, owner_at(s, shape, i), OWNED) {
            return false;
        }
    }
    true
}

// A state's entry, exit and waiting actions count together.
fn owners_act(s: &[u8], shape: Shape) -> bool
    requires { IsShape s.now shape × (all file.in_code (records s.now) ≡ true) × (file.all_named (read_charts s.now) ≡ true) }
    ensures { result ≡ (all (file.at_most_eight ((read_charts s.now).entries ++ (read_charts s.now).exits ++ (read_charts s.now).waiting_actions)) (upto (length (read_charts s.now).homes)) && all (file.at_most_eight (read_charts s.now).transition_actions) (upto (length (read_charts s.now).transitions))) }
{
    let mut counts = [0u8; STATES + TRANSITIONS];
    let n = (shape.states as usize) + (shape.transitions as usize);
    owners_within(s, shape, &mut counts[..n])
}

// Of a framed file whose codes and ranges are kept, and whose numbers name things.
pub fn structured(s: &[u8], shape: Shape) -> bool
    requires { IsShape s.now shape × (all file.in_code (records s.now) ≡ true) × (file.all_named (read_charts s.now) ≡ true) }
    ensures { result ≡ file.structured (read_charts s.now) }
{
    inside_charts(s, shape)
        & initials_fit(s, shape)
        & priorities_differ(s, shape)
        & owners_act(s, shape)
}
