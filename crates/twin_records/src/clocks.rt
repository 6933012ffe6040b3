// Clocks: one per timing trigger, in transition order, then one per waiting state, in state order.
ghost use Rattle.std.specs.Prelude.{◌≡◌, cond, map, ◌≤◌, ◌<◌, ◌^◌, eqb, length, replicate};
ghost use Rattle.model.specs.Limits.{most_states, most_transitions};
ghost use Rattle.prelude.specs.Lists.{gather, upto};
ghost use Rattle.model.specs.ChartSet.{read_charts};
ghost use Rattle.model.specs.AutomataTable.{write_clock};
ghost use Rattle.model.specs.Translation.{clocks_of, state_count, transition_clocks, waiting_clocks, twin};
ghost use Rattle.chart_records.specs.Parts.{trigger_for};
ghost use Rattle.chart_records.specs.Shape.{IsShape};
ghost use Rattle.chart_records.specs.Accepted.{Accepted};
ghost use Rattle.chart_steps.specs.Tables.{HasFirsts, named};
ghost use Rattle.twin_records.specs.Tables.{HasClocks, HasWaiting};
ghost use Rattle.twin_records.specs.Texts.{section, Puts};

use super::fields::trigger_of;
use super::writing::{clock_bytes, put_record};
use chart_records::Shape;
use chart_records::fields::Trigger;
use chart_steps::actions::wait_of;
use records::sizes::{ActionHeads, STATES, TRANSITIONS, WAITING_KEYS};
use timings::ticks;

// Of each transition the number of its own clock, if it has one; of each state its waiting clock's, 65535 where it does not wait: an Option would
// take twice the bytes.
#[derive(Drop)]
pub struct ClockNumbers {
    pub own: [u16; TRANSITIONS],
    pub waiting: [u16; STATES],
}

// A timing trigger has one.
pub fn clocks_in(trigger: Trigger) -> u16
    ensures { (result ≡ length (clocks_of (trigger_for trigger))) × (result ≤ 1) }
{
    match trigger {
        Trigger::Always | Trigger::Event(_) => 0,
        Trigger::After(_) | Trigger::Every(_) => 1,
    }
}

// Of each transition the number of clocks before its own; answers how many there are.
pub fn fill_clocks(s: &[u8], shape: Shape, clocks: &mut [u16; TRANSITIONS]) -> u16
    requires { IsShape s.now shape × (clocks.old ≡ replicate most_transitions 0) }
    ensures { (result ≡ length (transition_clocks (read_charts s.now))) × HasClocks (read_charts s.now) clocks.new }
{
    let mut count: u16 = 0;
    for t in 0..shape.transitions {
        let i = t as usize;
        clocks[i] = count;
        count += clocks_in(trigger_of(s, shape, t));
    }
    count
}

// How many a table's place names: one, or none.
pub fn count_of(place: u16) -> u16
    ensures { (result ≡ length (named place)) × (result ≤ 1) }
{
    if place == 65535 { 0 } else { 1 }
}

// The number of what a table's place names; 65535 where it names none.
fn number_for(place: u16, number: u16) -> u16
    ensures { result ≡ cond (eqb place 65535) 65535 number }
{
    if place == 65535 { 65535 } else { number }
}

// Of each state the number of its waiting clock, behind the transitions' clocks; 65535 where it does not wait.
pub fn fill_waiting(
    s: &[u8],
    shape: Shape,
    first: &ActionHeads,
    clocks: u16,
    waiting: &mut [u16; STATES],
)
    requires { Accepted s.now shape × HasFirsts s.now shape first.now × (clocks ≡ length (transition_clocks (read_charts s.now))) × (waiting.old ≡ replicate most_states 65535) }
    ensures { HasWaiting (read_charts s.now) waiting.new }
{
    let mut count = clocks;
    for state in 0..shape.states {
        let i = state as usize;
        let action = first[(WAITING_KEYS + state) as usize];
        waiting[i] = number_for(action, count);
        count += count_of(action);
    }
}

fn put_clock(trigger: Trigger, out: &mut [u8], at: usize) -> usize
    requires { at < 2 ^ 62 }
    ensures { Puts out.old at (section 37 (map write_clock (clocks_of (trigger_for trigger)))) out.new result 16 }
{
    match trigger {
        Trigger::Always | Trigger::Event(_) => at,
        Trigger::After(ms) => put_record(out, at, clock_bytes(2, ticks(ms))),
        Trigger::Every(ms) => put_record(out, at, clock_bytes(3, ticks(ms))),
    }
}

fn put_transition_clocks(s: &[u8], shape: Shape, out: &mut [u8], at: usize) -> usize
    requires { IsShape s.now shape × (at < 2 ^ 60) }
    ensures { Puts out.old at (section 37 (map write_clock (transition_clocks (read_charts s.now)))) out.new result (2 ^ 20) }
{
    let mut next = at;
    for t in 0..shape.transitions {
        next = put_clock(trigger_of(s, shape, t), out, next);
    }
    next
}

// A state's waiting actions have one time, so that the first tells it.
fn put_waiting_clock(
    s: &[u8],
    shape: Shape,
    first: &ActionHeads,
    out: &mut [u8],
    at: usize,
    state: u16,
) -> usize
    requires { Accepted s.now shape × HasFirsts s.now shape first.now × (state < shape.states) × (at < 2 ^ 62) }
    ensures { Puts out.old at (section 37 (map write_clock (waiting_clocks (read_charts s.now) state))) out.new result 16 }
{
    let action = first[(WAITING_KEYS + state) as usize];
    if action == 65535 {
        return at;
    }
    put_record(out, at, clock_bytes(3, ticks(wait_of(s, shape, action))))
}

fn put_waiting_clocks(
    s: &[u8],
    shape: Shape,
    first: &ActionHeads,
    out: &mut [u8],
    at: usize,
) -> usize
    requires { Accepted s.now shape × HasFirsts s.now shape first.now × (at < 2 ^ 61) }
    ensures { Puts out.old at (section 37 (map write_clock (gather (waiting_clocks (read_charts s.now)) (upto (state_count (read_charts s.now)))))) out.new result (2 ^ 20) }
{
    let mut next = at;
    for state in 0..shape.states {
        next = put_waiting_clock(s, shape, first, out, next, state);
    }
    next
}

pub fn put_clocks(s: &[u8], shape: Shape, first: &ActionHeads, out: &mut [u8], at: usize) -> usize
    requires { Accepted s.now shape × HasFirsts s.now shape first.now × (at < 2 ^ 60) }
    ensures { Puts out.old at (section 37 (map write_clock (twin (read_charts s.now)).clocks)) out.new result (2 ^ 40) }
{
    let waiting_at = put_transition_clocks(s, shape, out, at);
    put_waiting_clocks(s, shape, first, out, waiting_at)
}
