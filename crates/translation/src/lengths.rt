// How long the twin's file is, counted and not written.
ghost use Rattle.std.specs.Prelude.{◌≡◌, cond, ◌+◌, ◌*◌, ◌≤◌, eqb, length, replicate};
ghost use Rattle.chart_steps.specs.Tables.{action_keys};
ghost use Rattle.model.specs.Limits.{most_states};
ghost use Rattle.model.specs.ChartSet.{read_charts};
ghost use Rattle.model.specs.Translation.{transition_clocks, literals_of, updates_of, resets_of, twin_bytes};
ghost use Rattle.chart_records.specs.Accepted.{Accepted};
ghost use Rattle.twin_records.specs.Tables.{CountsActions, CountsLeaving, CountsClocks, CountsResets};
ghost use Rattle.translation.specs.Lengths.{of_transitions, idle_length};

use chart_records::Shape;
use chart_records::fields::first_node;
use chart_steps::actions::key_of;
use chart_steps::transitions::{source_of, target_of};
use records::sizes::{
    ACTION_KEYS, ActionHeads, CROSSING_PLACES, EXIT_PLACES, STATES, WAITING_KEYS,
};
use twin_records::clocks::clocks_in;
use twin_records::fields::trigger_of;

fn count_actions(s: &[u8], shape: Shape, counts: &mut ActionHeads)
    requires { Accepted s.now shape × (counts.old ≡ replicate action_keys 0) }
    ensures { CountsActions s.now shape counts.new }
{
    for a in 0..shape.actions {
        let key = key_of(s, shape, a) as usize;
        counts[key] += 1;
    }
}

// The transitions' literals and clocks. Of two transitions that leave a state one is a must-not of the other, so each is counted with those before it
// that leave its state, and with its own literal.
fn count_tests(
    s: &[u8],
    shape: Shape,
    leaving: &mut [u16; STATES],
    clocks: &mut [u16; STATES],
) -> usize
    requires { Accepted s.now shape × (leaving.old ≡ replicate most_states 0) × (clocks.old ≡ replicate most_states 0) }
    ensures { (result ≡ length (of_transitions (read_charts s.now) (literals_of (read_charts s.now))) + length (transition_clocks (read_charts s.now))) × CountsLeaving (read_charts s.now) leaving.new × CountsClocks (read_charts s.now) clocks.new × (length clocks.new ≡ most_states) }
{
    let mut n: usize = 0;
    for t in 0..shape.transitions {
        let source = source_of(s, shape, t) as usize;
        let own = clocks_in(trigger_of(s, shape, t));
        n += (leaving[source] + own + 1) as usize;
        leaving[source] += 1;
        clocks[source] += own;
    }
    n
}

// One where there is any.
fn any_of(count: u16) -> u16
    ensures { result ≡ cond (eqb count 0) 0 1 }
{
    if count == 0 { 0 } else { 1 }
}

// The idle edge and its must-nots; where the state waits also the due edge and its must-nots, the actions, and the clock with its two literals.
fn idle_length(leaving: u16, waiting: u16) -> u16
    requires { (leaving ≤ 16) × (waiting ≤ 8) }
    ensures { (result ≡ cond (eqb waiting 0) (leaving + 1) (2 * leaving + waiting + 5)) × (result ≤ 45) }
{
    if waiting == 0 {
        leaving + 1
    } else {
        2 * leaving + waiting + 5
    }
}

// What the idle edges have; a state's waiting clock is counted to its clocks.
fn count_idle(
    s: &[u8],
    shape: Shape,
    actions: &ActionHeads,
    leaving: &[u16; STATES],
    clocks: &mut [u16; STATES],
) -> usize
    requires { Accepted s.now shape × CountsActions s.now shape actions.now × CountsLeaving (read_charts s.now) leaving.now × CountsClocks (read_charts s.now) clocks.old × (length clocks.old ≡ most_states) }
    ensures { (result ≡ idle_length (read_charts s.now)) × CountsResets (read_charts s.now) clocks.new }
{
    let mut n: usize = 0;
    for state in 0..shape.states {
        let i = state as usize;
        let waiting = actions[(WAITING_KEYS + state) as usize];
        n += idle_length(leaving[i], waiting) as usize;
        clocks[i] += any_of(waiting);
    }
    n
}

// The transitions' updates and resets.
fn count_effects(s: &[u8], shape: Shape, actions: &ActionHeads, resets: &[u16; STATES]) -> usize
    requires { Accepted s.now shape × CountsActions s.now shape actions.now × CountsResets (read_charts s.now) resets.now }
    ensures { result ≡ length (of_transitions (read_charts s.now) (updates_of (read_charts s.now))) + length (of_transitions (read_charts s.now) (resets_of (read_charts s.now))) }
{
    let mut n: usize = 0;
    for t in 0..shape.transitions {
        let source = source_of(s, shape, t) as usize;
        let target = target_of(s, shape, t) as usize;
        let leaving = EXIT_PLACES + source;
        let crossing = CROSSING_PLACES + (t as usize);
        n += (actions[leaving] + actions[crossing] + actions[target] + resets[target]) as usize;
    }
    n
}

// Each chart, state, transition, variable and node has a record; the others are counted.
pub fn twin_length(s: &[u8], shape: Shape) -> usize
    requires { Accepted s.now shape }
    ensures { result ≡ length (twin_bytes s.now) }
{
    let mut actions = [0u16; ACTION_KEYS];
    count_actions(s, shape, &mut actions);
    let mut leaving = [0u16; STATES];
    let mut clocks = [0u16; STATES];
    let tests = count_tests(s, shape, &mut leaving, &mut clocks);
    let idle = count_idle(s, shape, &actions, &leaving, &mut clocks);
    let effects = count_effects(s, shape, &actions, &clocks);
    let copied = first_node(shape) + (shape.nodes as usize);
    16 * (copied + tests + idle + effects)
}
