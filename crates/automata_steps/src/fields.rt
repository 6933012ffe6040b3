// Where an accepted table's records stand, and their fields, which lie in the file, so that they are read without a test.
ghost use Rattle.std.specs.Prelude.{◌≡◌, ◌+◌, ◌*◌, ◌<◌};
ghost use Rattle.records.specs.Bytes.{byte, two};
ghost use Rattle.automata_records.specs.Shape.{IsShape};
ghost use Rattle.automata_records.specs.Places.{first_edge, first_literal, first_clock, first_update, first_reset, literal_in, edge_at, clock_at};
ghost use Rattle.automata_records.specs.Accepted.{InFile, FewRecords};
ghost use Rattle.timings.specs.Growth.{timing_if};

use automata_records::Shape;
use records::u16_within;

// The number of a kind's first record.
pub fn first_edge(shape: Shape) -> u16
    requires { FewRecords shape }
    ensures { result ≡ first_edge shape }
{
    shape.automata + shape.locations
}

pub fn first_literal(shape: Shape) -> u16
    requires { FewRecords shape }
    ensures { result ≡ first_literal shape }
{
    shape.automata + shape.locations + shape.edges
}

pub fn first_clock(shape: Shape) -> u16
    requires { FewRecords shape }
    ensures { result ≡ first_clock shape }
{
    first_literal(shape) + shape.literals
}

pub fn first_update(shape: Shape) -> u16
    requires { FewRecords shape }
    ensures { result ≡ first_update shape }
{
    first_clock(shape) + shape.clocks + shape.variables + shape.nodes
}

pub fn first_reset(shape: Shape) -> u16
    requires { FewRecords shape }
    ensures { result ≡ first_reset shape }
{
    first_update(shape) + shape.updates
}

pub fn byte_of(s: &[u8], n: u16, k: usize) -> u8
    requires { InFile s.now n × (k < 16) }
    ensures { result ≡ byte s.now (16 * n + k) }
{
    s[16 * (n as usize) + k]
}

pub fn two_of(s: &[u8], n: u16, k: usize) -> u16
    requires { InFile s.now n × (k < 15) }
    ensures { result ≡ two s.now (16 * n + k) }
{
    u16_within(s, 16 * (n as usize) + k)
}

pub fn automaton_of(s: &[u8], shape: Shape, e: u16) -> u8
    requires { IsShape s.now shape × (e < shape.edges) }
    ensures { result ≡ (edge_at s.now shape e).automaton }
{
    byte_of(s, first_edge(shape) + e, 1)
}

pub fn target_of(s: &[u8], shape: Shape, e: u16) -> u16
    requires { IsShape s.now shape × (e < shape.edges) }
    ensures { result ≡ (edge_at s.now shape e).target }
{
    two_of(s, first_edge(shape) + e, 4)
}

// A literal's sign: it must hold, or must not.
pub fn must_hold(s: &[u8], n: u16) -> bool
    requires { InFile s.now n }
    ensures { result ≡ (literal_in s.now n).1.must }
{
    byte_of(s, n, 1) == 1
}

// A clock is an after-clock, or an every-clock.
pub fn is_after(s: &[u8], shape: Shape, k: u16) -> bool
    requires { IsShape s.now shape × (k < shape.clocks) }
    ensures { timing_if result ≡ (clock_at s.now shape k).timing }
{
    byte_of(s, first_clock(shape) + k, 1) == 2
}

pub fn ticks_of(s: &[u8], shape: Shape, k: u16) -> u16
    requires { IsShape s.now shape × (k < shape.clocks) }
    ensures { result ≡ (clock_at s.now shape k).ticks }
{
    two_of(s, first_clock(shape) + k, 2)
}
