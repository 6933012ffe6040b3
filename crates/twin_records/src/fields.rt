// The fields of a framed chart file's things, by their numbers: each thing's record is in the file, so that no read is tested.
ghost use Rattle.std.specs.Prelude.{◌≡◌, ◌<◌};
ghost use Rattle.chart_records.specs.Parts.{trigger_for, guard_for, deed_for};
ghost use Rattle.chart_records.specs.Places.{trigger_by, transition_at, action_at};
ghost use Rattle.chart_records.specs.Shape.{IsShape};

use chart_records::Shape;
use chart_records::fields::{Deed, Trigger, deed_by, first_node, first_transition, guard_by};
use records::{u16_within, u32_within};

pub fn priority_of(s: &[u8], shape: Shape, t: u16) -> u8
    requires { IsShape s.now shape × (t < shape.transitions) }
    ensures { result ≡ (transition_at s.now shape t).priority }
{
    let at = 16 * (first_transition(shape) + (t as usize));
    s[at + 1]
}

fn trigger_by(code: u8, event: u8, ms: u32) -> Trigger
    ensures { trigger_for result ≡ trigger_by code event ms }
{
    match code {
        1 => Trigger::Event(event),
        2 => Trigger::After(ms),
        3 => Trigger::Every(ms),
        _ => Trigger::Always,
    }
}

pub fn trigger_of(s: &[u8], shape: Shape, t: u16) -> Trigger
    requires { IsShape s.now shape × (t < shape.transitions) }
    ensures { trigger_for result ≡ (transition_at s.now shape t).trigger }
{
    let at = 16 * (first_transition(shape) + (t as usize));
    trigger_by(s[at + 6], s[at + 7], u32_within(s, at + 8))
}

pub fn guard_of(s: &[u8], shape: Shape, t: u16) -> Option<u16>
    requires { IsShape s.now shape × (t < shape.transitions) }
    ensures { guard_for result ≡ (transition_at s.now shape t).guard }
{
    let at = 16 * (first_transition(shape) + (t as usize));
    guard_by(u16_within(s, at + 12))
}

pub fn deed_of(s: &[u8], shape: Shape, a: u16) -> Deed
    requires { IsShape s.now shape × (a < shape.actions) }
    ensures { deed_for result ≡ (action_at s.now shape a).1.deed }
{
    let at = 16 * (first_node(shape) + (shape.nodes as usize) + (a as usize));
    deed_by(s[at + 4], s[at + 5], u16_within(s, at + 6))
}
