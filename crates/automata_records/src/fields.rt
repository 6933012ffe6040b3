// The fields of an automata file's things, by their numbers. A byte past the end counts as 0, so every function takes any bytes.
ghost use Rattle.std.specs.Prelude.{◌≡◌, ◌+◌, ◌*◌, ◌<◌, ◌^◌};
ghost use Rattle.records.specs.Bytes.{two};
ghost use Rattle.chart_records.specs.Parts.{guard_for, deed_for};
ghost use Rattle.automata_records.specs.Shape.{IsShape};
ghost use Rattle.automata_records.specs.Places.{first_location, first_edge, first_literal, first_clock, first_variable, first_node, first_update, first_reset, literal_trigger_by, home_at, edge_at, literal_at, clock_at, update_at, reset_at, node_part};
ghost use Rattle.automata_records.specs.Parts.{literal_trigger_for};

use super::Shape;
use chart_records::fields::{Deed, byte_in, deed_by, guard_by, guard_by_plus_one, u16_in};
use records::u16_at;

// A literal's trigger.
#[derive(Clone, Copy)]
pub enum LiteralTrigger {
    Always,
    Event(u8),
    Clock(u16),
}

// The numbers of things' records: far below what a place in a file may be.
fn location_record(shape: Shape, i: u16) -> usize
    ensures { (result ≡ first_location shape + i) × (result < 2 ^ 20) }
{
    (shape.automata as usize) + (i as usize)
}

fn edge_record(shape: Shape, i: u16) -> usize
    ensures { (result ≡ first_edge shape + i) × (result < 2 ^ 20) }
{
    (shape.automata as usize) + (shape.locations as usize) + (i as usize)
}

fn first_literal(shape: Shape) -> usize
    ensures { (result ≡ first_literal shape) × (result < 3 * 2 ^ 16) }
{
    (shape.automata as usize) + (shape.locations as usize) + (shape.edges as usize)
}

fn literal_record(shape: Shape, i: u16) -> usize
    ensures { (result ≡ first_literal shape + i) × (result < 2 ^ 20) }
{
    first_literal(shape) + (i as usize)
}

fn clock_record(shape: Shape, i: u16) -> usize
    ensures { (result ≡ first_clock shape + i) × (result < 2 ^ 20) }
{
    first_literal(shape) + (shape.literals as usize) + (i as usize)
}

fn first_variable(shape: Shape) -> usize
    ensures { (result ≡ first_variable shape) × (result < 5 * 2 ^ 16) }
{
    first_literal(shape) + (shape.literals as usize) + (shape.clocks as usize)
}

fn first_node(shape: Shape) -> usize
    ensures { (result ≡ first_node shape) × (result < 6 * 2 ^ 16) }
{
    first_variable(shape) + (shape.variables as usize)
}

fn update_record(shape: Shape, i: u16) -> usize
    ensures { (result ≡ first_update shape + i) × (result < 2 ^ 20) }
{
    first_node(shape) + (shape.nodes as usize) + (i as usize)
}

fn reset_record(shape: Shape, i: u16) -> usize
    ensures { (result ≡ first_reset shape + i) × (result < 2 ^ 20) }
{
    first_node(shape) + (shape.nodes as usize) + (shape.updates as usize) + (i as usize)
}

// The initial location of an automaton.
pub fn initial_of(s: &[u8], automaton: u16) -> u16
    ensures { result ≡ two s.now (16 * automaton + 2) }
{
    u16_at(s, 16 * (automaton as usize) + 2)
}

// The automaton of a location.
pub fn home_of(s: &[u8], shape: Shape, location: u16) -> u8
    ensures { result ≡ home_at s.now shape location }
{
    byte_in(s, location_record(shape, location), 1)
}

pub fn automaton_of(s: &[u8], shape: Shape, e: u16) -> u8
    ensures { result ≡ (edge_at s.now shape e).automaton }
{
    byte_in(s, edge_record(shape, e), 1)
}

pub fn source_of(s: &[u8], shape: Shape, e: u16) -> u16
    ensures { result ≡ (edge_at s.now shape e).source }
{
    u16_in(s, edge_record(shape, e), 2)
}

pub fn target_of(s: &[u8], shape: Shape, e: u16) -> u16
    ensures { result ≡ (edge_at s.now shape e).target }
{
    u16_in(s, edge_record(shape, e), 4)
}

pub fn idles(s: &[u8], shape: Shape, e: u16) -> bool
    ensures { result ≡ (edge_at s.now shape e).idles }
{
    byte_in(s, edge_record(shape, e), 6) == 1
}

// A literal's sign: it must hold, or must not.
pub fn must_hold(s: &[u8], shape: Shape, l: u16) -> bool
    ensures { result ≡ (literal_at s.now shape l).1.must }
{
    byte_in(s, literal_record(shape, l), 1) == 1
}

pub fn literal_edge(s: &[u8], shape: Shape, l: u16) -> u16
    ensures { result ≡ (literal_at s.now shape l).0 }
{
    u16_in(s, literal_record(shape, l), 2)
}

#[tactic(auto, unfolding(prelude::specs::Lists::case_of))]
fn literal_trigger_by(code: u8, event: u8, clock: u16) -> LiteralTrigger
    ensures { literal_trigger_for result ≡ literal_trigger_by code event clock }
{
    match code {
        1 => LiteralTrigger::Event(event),
        2 => LiteralTrigger::Clock(clock),
        _ => LiteralTrigger::Always,
    }
}

pub fn literal_trigger_of(s: &[u8], shape: Shape, l: u16) -> LiteralTrigger
    ensures { literal_trigger_for result ≡ (literal_at s.now shape l).1.trigger }
{
    let n = literal_record(shape, l);
    literal_trigger_by(byte_in(s, n, 4), byte_in(s, n, 5), u16_in(s, n, 6))
}

pub fn guard_of(s: &[u8], shape: Shape, l: u16) -> Option<u16>
    ensures { guard_for result ≡ (literal_at s.now shape l).1.guard }
{
    guard_by(u16_in(s, literal_record(shape, l), 8))
}

pub fn ticks_of(s: &[u8], shape: Shape, k: u16) -> u16
    ensures { result ≡ (clock_at s.now shape k).ticks }
{
    u16_in(s, clock_record(shape, k), 2)
}

pub fn update_edge(s: &[u8], shape: Shape, u: u16) -> u16
    ensures { result ≡ (update_at s.now shape u).0 }
{
    u16_in(s, update_record(shape, u), 2)
}

pub fn deed_of(s: &[u8], shape: Shape, u: u16) -> Deed
    ensures { deed_for result ≡ (update_at s.now shape u).1.deed }
{
    let n = update_record(shape, u);
    deed_by(byte_in(s, n, 1), byte_in(s, n, 4), u16_in(s, n, 6))
}

// The guard of update u.
pub fn condition_of(s: &[u8], shape: Shape, u: u16) -> Option<u16>
    ensures { guard_for result ≡ (update_at s.now shape u).1.guard }
{
    guard_by_plus_one(u16_in(s, update_record(shape, u), 8))
}

pub fn reset_edge(s: &[u8], shape: Shape, r: u16) -> u16
    ensures { result ≡ (reset_at s.now shape r).0 }
{
    u16_in(s, reset_record(shape, r), 2)
}

pub fn reset_clock(s: &[u8], shape: Shape, r: u16) -> u16
    ensures { result ≡ (reset_at s.now shape r).1 }
{
    u16_in(s, reset_record(shape, r), 4)
}

// The part of a file that has the nodes' records, one after the other.
pub fn node_records(s: &[u8], shape: Shape) -> &[u8]
    requires { IsShape s.now shape }
    ensures { result.now ≡ node_part s.now shape }
{
    let a = 16 * first_node(shape);
    let e = a + 16 * (shape.nodes as usize);
    &s[a..e]
}
