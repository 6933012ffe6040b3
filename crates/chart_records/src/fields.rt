// The fields of a chart file's things, by their numbers. A byte past the end counts as 0, so every function takes any bytes.
ghost use Rattle.std.specs.Prelude.{◌≡◌, ◌+◌, ◌*◌, ◌<◌, ◌^◌};
ghost use Rattle.records.specs.Bytes.{byte, two, four};
ghost use Rattle.model.specs.ChartSet.{read_guard, read_plus_one, read_deed};
ghost use Rattle.chart_records.specs.Places.{first_transition, first_variable, first_node, first_action, home_at, transition_at, place_at, action_at, wait_at, node_part};
ghost use Rattle.chart_records.specs.Shape.{IsShape};
ghost use Rattle.chart_records.specs.Parts.{trigger_for, guard_for, deed_for};

use super::Shape;
use records::{byte_at, u16_at, u32_at};

#[derive(Clone, Copy)]
pub enum Trigger {
    Always,
    Event(u8),
    After(u32),
    Every(u32),
}

// A variable and the node assigned to it, or an event.
#[derive(Clone, Copy)]
pub enum Deed {
    Assign(u8, u16),
    Raise(u8),
}

// The numbers of the first records of the kinds.
pub fn first_transition(shape: Shape) -> usize
    ensures { result ≡ first_transition shape }
{
    (shape.charts as usize) + (shape.states as usize)
}

pub fn first_variable(shape: Shape) -> usize
    ensures { result ≡ first_variable shape }
{
    first_transition(shape) + (shape.transitions as usize)
}

pub fn first_node(shape: Shape) -> usize
    ensures { result ≡ first_node shape }
{
    first_variable(shape) + (shape.variables as usize)
}

fn transition_record(shape: Shape, t: u16) -> usize
    ensures { (result ≡ first_transition shape + t) × (result < 2 ^ 20) }
{
    first_transition(shape) + (t as usize)
}

fn action_record(shape: Shape, i: u16) -> usize
    ensures { (result ≡ first_action shape + i) × (result < 2 ^ 20) }
{
    first_node(shape) + (shape.nodes as usize) + (i as usize)
}

// A field of record n, from its byte k on.
pub fn byte_in(s: &[u8], n: usize, k: usize) -> u8
    requires { (n < 2 ^ 20) × (k < 16) }
    ensures { result ≡ byte s.now (16 * n + k) }
{
    byte_at(s, 16 * n + k)
}

pub fn u16_in(s: &[u8], n: usize, k: usize) -> u16
    requires { (n < 2 ^ 20) × (k < 16) }
    ensures { result ≡ two s.now (16 * n + k) }
{
    u16_at(s, 16 * n + k)
}

fn u32_in(s: &[u8], n: usize, k: usize) -> u32
    requires { (n < 2 ^ 20) × (k < 16) }
    ensures { result ≡ four s.now (16 * n + k) }
{
    u32_at(s, 16 * n + k)
}

pub fn initial_of(s: &[u8], chart: u16) -> u16
    ensures { result ≡ two s.now (16 * chart + 2) }
{
    u16_at(s, 16 * (chart as usize) + 2)
}

pub fn home_of(s: &[u8], shape: Shape, state: u16) -> u8
    ensures { result ≡ home_at s.now shape state }
{
    byte_in(s, (shape.charts as usize) + (state as usize), 1)
}

pub fn priority_of(s: &[u8], shape: Shape, t: u16) -> u8
    ensures { result ≡ (transition_at s.now shape t).priority }
{
    byte_in(s, transition_record(shape, t), 1)
}

pub fn source_of(s: &[u8], shape: Shape, t: u16) -> u16
    ensures { result ≡ (transition_at s.now shape t).source }
{
    u16_in(s, transition_record(shape, t), 2)
}

pub fn target_of(s: &[u8], shape: Shape, t: u16) -> u16
    ensures { result ≡ (transition_at s.now shape t).target }
{
    u16_in(s, transition_record(shape, t), 4)
}

#[tactic(auto, unfolding(prelude::specs::Lists::case_of))]
pub fn trigger_of(s: &[u8], shape: Shape, t: u16) -> Trigger
    ensures { trigger_for result ≡ (transition_at s.now shape t).trigger }
{
    let n = transition_record(shape, t);
    match byte_in(s, n, 6) {
        1 => Trigger::Event(byte_in(s, n, 7)),
        2 => Trigger::After(u32_in(s, n, 8)),
        3 => Trigger::Every(u32_in(s, n, 8)),
        _ => Trigger::Always,
    }
}

// The node of a guard; 65,535 is the number of no node.
pub fn guard_by(node: u16) -> Option<u16>
    ensures { guard_for result ≡ read_guard node }
{
    (node != 65535).then_some(node)
}

// Of an action or update: the node plus one, 0 for none.
pub fn guard_by_plus_one(field: u16) -> Option<u16>
    ensures { guard_for result ≡ read_plus_one field }
{
    field.checked_sub(1)
}

pub fn guard_of(s: &[u8], shape: Shape, t: u16) -> Option<u16>
    ensures { guard_for result ≡ (transition_at s.now shape t).guard }
{
    guard_by(u16_in(s, transition_record(shape, t), 12))
}

// The place of action i, as its byte has it: 1 entry, 2 exit, 3 transition, 4 waiting. An unchecked file may have any other byte there, so an enum would
// give every test of a place a case for the rest.
pub fn place_of(s: &[u8], shape: Shape, i: u16) -> u8
    ensures { result ≡ place_at s.now shape i }
{
    byte_in(s, action_record(shape, i), 1)
}

pub fn owner_of(s: &[u8], shape: Shape, i: u16) -> u16
    ensures { result ≡ (action_at s.now shape i).0 }
{
    u16_in(s, action_record(shape, i), 2)
}

// Code 2 raises, another assigns.
#[tactic(auto, unfolding(prelude::specs::Lists::case_of))]
pub fn deed_by(code: u8, x: u8, node: u16) -> Deed
    ensures { deed_for result ≡ read_deed code x node }
{
    if code == 2 {
        Deed::Raise(x)
    } else {
        Deed::Assign(x, node)
    }
}

pub fn deed_of(s: &[u8], shape: Shape, i: u16) -> Deed
    ensures { deed_for result ≡ (action_at s.now shape i).1.deed }
{
    let n = action_record(shape, i);
    deed_by(byte_in(s, n, 4), byte_in(s, n, 5), u16_in(s, n, 6))
}

// The guard of action i.
pub fn condition_of(s: &[u8], shape: Shape, i: u16) -> Option<u16>
    ensures { guard_for result ≡ (action_at s.now shape i).1.guard }
{
    guard_by_plus_one(u16_in(s, action_record(shape, i), 8))
}

// The milliseconds of waiting action i.
pub fn wait_of(s: &[u8], shape: Shape, i: u16) -> u32
    ensures { result ≡ (wait_at s.now shape i).1 }
{
    u32_in(s, action_record(shape, i), 12)
}

// The part of a file that has the nodes' records, one after the other.
pub fn node_records(s: &[u8], shape: Shape) -> &[u8]
    requires { IsShape s.now shape }
    ensures { result.now ≡ node_part s.now shape }
{
    let a = 16 * first_node(shape);
    let e = a + 16 * (shape.nodes as usize);
    &s[a..e]
}
