// Resets by edge, then clock: all clocks of the transitions that leave the target, then its waiting clock.
ghost use Rattle.std.specs.Prelude.{◌≡◌, map, ◌<◌, ◌^◌, drop, replicate};
ghost use Rattle.model.specs.Limits.{most_states, most_transitions};
ghost use Rattle.prelude.specs.Lists.{gather, upto};
ghost use Rattle.model.specs.ChartSet.{read_charts};
ghost use Rattle.model.specs.Translation.{from_transition, transition_count, clocks_of, clocks_leaving};
ghost use Rattle.chart_records.specs.Parts.{trigger_for};
ghost use Rattle.chart_records.specs.Accepted.{Accepted};
ghost use Rattle.chart_steps.specs.Tables.{named};
ghost use Rattle.twin_records.specs.Tables.{HasClocks, HasWaiting, HasLeaving};
ghost use Rattle.twin_records.specs.Texts.{reset_texts, resets_text, Puts};

use chart_records::Shape;
use chart_records::fields::Trigger;
use chart_steps::transitions::{source_of, target_of};
use records::sizes::{STATES, TRANSITIONS};
use twin_records::clocks::ClockNumbers;
use twin_records::fields::trigger_of;
use twin_records::writing::{put_record, reset_bytes};

// Of each state its first leaving transition, and of each transition the next that leaves the same state; 65535 is none: an
// Option would take twice the bytes.
#[derive(Drop)]
pub struct Leaving {
    pub first: [u16; STATES],
    pub next: [u16; TRANSITIONS],
}

// From the last transition down, so that each finds the one behind it; places past the transitions are kept.
pub fn fill_leaving(
    s: &[u8],
    shape: Shape,
    first: &mut [u16; STATES],
    next: &mut [u16; TRANSITIONS],
)
    requires { Accepted s.now shape × (first.old ≡ replicate most_states 65535) × (next.old ≡ replicate most_transitions 65535) }
    ensures { HasLeaving (read_charts s.now) first.new next.new × (drop (transition_count (read_charts s.now)) next.new ≡ drop (transition_count (read_charts s.now)) next.old) }
{
    for t in (0..shape.transitions).rev() {
        let source = source_of(s, shape, t) as usize;
        next[t as usize] = first[source];
        first[source] = t;
    }
}

fn put_reset(trigger: Trigger, clock: u16, out: &mut [u8], at: usize, edge: u16) -> usize
    requires { at < 2 ^ 62 }
    ensures { Puts out.old at (reset_texts edge (map (λ _. clock) (clocks_of (trigger_for trigger)))) out.new result 16 }
{
    match trigger {
        Trigger::Always | Trigger::Event(_) => at,
        Trigger::After(_) | Trigger::Every(_) => put_record(out, at, reset_bytes(edge, clock)),
    }
}

fn put_leaving(
    s: &[u8],
    shape: Shape,
    clocks: &ClockNumbers,
    leaving: &Leaving,
    out: &mut [u8],
    at: usize,
    edge: u16,
    state: u16,
) -> usize
    requires { Accepted s.now shape × HasClocks (read_charts s.now) clocks.now.own × HasLeaving (read_charts s.now) leaving.now.first leaving.now.next × (state < shape.states) × (at < 2 ^ 61) }
    ensures { Puts out.old at (reset_texts edge (clocks_leaving (read_charts s.now) state)) out.new result (2 ^ 20) }
{
    let mut place = at;
    let mut t = leaving.first[state as usize];
    while t != 65535 {
        let i = t as usize;
        let clock = clocks.own[i];
        place = put_reset(trigger_of(s, shape, t), clock, out, place, edge);
        t = leaving.next[i];
    }
    place
}

// A state that does not wait has no waiting clock.
fn put_waiting_reset(clock: u16, out: &mut [u8], at: usize, edge: u16) -> usize
    requires { at < 2 ^ 62 }
    ensures { Puts out.old at (reset_texts edge (named clock)) out.new result 16 }
{
    if clock == 65535 {
        return at;
    }
    put_record(out, at, reset_bytes(edge, clock))
}

fn put_resets_of(
    s: &[u8],
    shape: Shape,
    clocks: &ClockNumbers,
    leaving: &Leaving,
    out: &mut [u8],
    at: usize,
    t: u16,
) -> usize
    requires { Accepted s.now shape × HasClocks (read_charts s.now) clocks.now.own × HasWaiting (read_charts s.now) clocks.now.waiting × HasLeaving (read_charts s.now) leaving.now.first leaving.now.next × (t < shape.transitions) × (at < 2 ^ 61) }
    ensures { Puts out.old at (resets_text (read_charts s.now) (from_transition t)) out.new result (2 ^ 21) }
{
    let target = target_of(s, shape, t);
    let last = put_leaving(s, shape, clocks, leaving, out, at, t, target);
    put_waiting_reset(clocks.waiting[target as usize], out, last, t)
}

// Idle edges have none.
pub fn put_resets(
    s: &[u8],
    shape: Shape,
    clocks: &ClockNumbers,
    leaving: &Leaving,
    out: &mut [u8],
    at: usize,
) -> usize
    requires { Accepted s.now shape × HasClocks (read_charts s.now) clocks.now.own × HasWaiting (read_charts s.now) clocks.now.waiting × HasLeaving (read_charts s.now) leaving.now.first leaving.now.next × (at < 2 ^ 60) }
    ensures { Puts out.old at (gather (λ t. resets_text (read_charts s.now) (from_transition t)) (upto (transition_count (read_charts s.now)))) out.new result (2 ^ 40) }
{
    let mut place = at;
    for t in 0..shape.transitions {
        place = put_resets_of(s, shape, clocks, leaving, out, place, t);
    }
    place
}
