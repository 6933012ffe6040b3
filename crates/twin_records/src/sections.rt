// The kinds that are copied: initial locations, locations' automata, variables and nodes.
ghost use Rattle.std.specs.Prelude.{◌≡◌, [], ◌∷◌, map, ◌<◌, ◌^◌};
ghost use Rattle.records.specs.Bytes.{bytes2};
ghost use Rattle.expressions.specs.Nodes.{node_at, write_node};
ghost use Rattle.model.specs.ChartSet.{read_charts};
ghost use Rattle.model.specs.AutomataTable.{write_variable};
ghost use Rattle.chart_records.specs.Places.{variable_at, node_part};
ghost use Rattle.chart_records.specs.Shape.{IsShape};
ghost use Rattle.chart_records.specs.Accepted.{Accepted};
ghost use Rattle.twin_records.specs.Texts.{record_text, section, Puts};

use super::writing::{home_bytes, initial_bytes, node_bytes, put_record};
use chart_records::Shape;
use chart_records::fields::{first_node, first_variable, home_of, initial_of};
use records::{byte_at, u16_within, u32_within};

pub fn put_initials(s: &[u8], shape: Shape, out: &mut [u8], at: usize) -> usize
    requires { IsShape s.now shape × (at < 2 ^ 60) }
    ensures { Puts out.old at (section 33 (map (λ i. 0 ∷ bytes2 i) (read_charts s.now).initial)) out.new result (2 ^ 40) }
{
    let mut next = at;
    for c in 0..shape.charts {
        let bytes = initial_bytes(initial_of(s, c));
        next = put_record(out, next, bytes);
    }
    next
}

pub fn put_homes(s: &[u8], shape: Shape, out: &mut [u8], at: usize) -> usize
    requires { IsShape s.now shape × (at < 2 ^ 60) }
    ensures { Puts out.old at (section 34 (map (λ h. h ∷ []) (read_charts s.now).homes)) out.new result (2 ^ 40) }
{
    let mut next = at;
    for state in 0..shape.states {
        let bytes = home_bytes(home_of(s, shape, state));
        next = put_record(out, next, bytes);
    }
    next
}

// The bounds and the start stand where they stood.
fn variable_bytes(s: &[u8], shape: Shape, v: u16) -> [u8; 16]
    ensures { result ≡ record_text 38 (write_variable (variable_at s.now shape v)) }
{
    let at = 16 * (first_variable(shape) + (v as usize));
    [
        38,
        0,
        byte_at(s, at + 2),
        byte_at(s, at + 3),
        byte_at(s, at + 4),
        byte_at(s, at + 5),
        byte_at(s, at + 6),
        byte_at(s, at + 7),
        0,
        0,
        0,
        0,
        0,
        0,
        0,
        0,
    ]
}

pub fn put_variables(s: &[u8], shape: Shape, out: &mut [u8], at: usize) -> usize
    requires { IsShape s.now shape × (at < 2 ^ 60) }
    ensures { Puts out.old at (section 38 (map write_variable (read_charts s.now).variables)) out.new result (2 ^ 40) }
{
    let mut next = at;
    for v in 0..shape.variables {
        let bytes = variable_bytes(s, shape, v);
        next = put_record(out, next, bytes);
    }
    next
}

// The fields stand where they stood: what the operator does not use is zero.
fn node_record(s: &[u8], shape: Shape, n: u16) -> [u8; 16]
    requires { Accepted s.now shape × (n < shape.nodes) }
    ensures { result ≡ record_text 39 (write_node (node_at (node_part s.now shape) n)) }
{
    let at = 16 * (first_node(shape) + (n as usize));
    node_bytes(
        s[at + 1],
        u16_within(s, at + 2),
        u16_within(s, at + 4),
        u16_within(s, at + 6),
        u32_within(s, at + 8),
    )
}

pub fn put_nodes(s: &[u8], shape: Shape, out: &mut [u8], at: usize) -> usize
    requires { Accepted s.now shape × (at < 2 ^ 60) }
    ensures { Puts out.old at (section 39 (map write_node (read_charts s.now).nodes)) out.new result (2 ^ 40) }
{
    let mut next = at;
    for n in 0..shape.nodes {
        let bytes = node_record(s, shape, n);
        next = put_record(out, next, bytes);
    }
    next
}
