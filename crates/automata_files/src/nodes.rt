// The nodes of refusal 11: operands, guards that are truths, assigned nodes that are numbers, no operand twice.
ghost use Rattle.std.specs.Prelude.{◌≡◌, ◌&&◌, ◌≤◌, leb, length, get_or, replicate};
ghost use Rattle.prelude.specs.Lists.{all, upto};
ghost use Rattle.expressions.specs.Nodes.{node_at};
ghost use Rattle.expressions.specs.Sorts.{operands_fit};
ghost use Rattle.expressions.specs.Uses.{add_uses, all_operands};
ghost use Rattle.model.specs.AutomataTable.{read_automata};
ghost use Rattle.model.specs.AutomataFile.{table_nodes_fit};
ghost use Rattle.chart_checks.specs.Used.{truths, numbers};
ghost use Rattle.automata_records.specs.Shape.{IsShape};
ghost use Rattle.automata_records.specs.Places.{node_part};
ghost use Rattle.automata_records.specs.Structure.{guard_at, condition_at, assigned_at};

use automata_records::Shape;
use automata_records::fields::{condition_of, deed_of, guard_of, node_records};
use chart_checks::uses::{deed_sorted, guard_sorted};

fn guards_fit(s: &[u8], shape: Shape) -> bool
    requires { IsShape s.now shape }
    ensures { result ≡ all (λ l. truths (node_at (node_part s.now shape)) (guard_at s.now shape l)) (upto shape.literals) }
{
    let nodes = node_records(s, shape);
    (0..shape.literals).all(|l| guard_sorted(guard_of(s, shape, l), nodes))
}

// An update's guard and its assigned node.
fn update_fits(s: &[u8], shape: Shape, nodes: &[u8], u: u16) -> bool
    ensures { result ≡ (truths (node_at nodes.now) (condition_at s.now shape u) && numbers (node_at nodes.now) (assigned_at s.now shape u)) }
{
    guard_sorted(condition_of(s, shape, u), nodes) & deed_sorted(deed_of(s, shape, u), nodes)
}

fn updates_fit(s: &[u8], shape: Shape) -> bool
    requires { IsShape s.now shape }
    ensures { result ≡ all (λ u. truths (node_at (node_part s.now shape)) (condition_at s.now shape u) && numbers (node_at (node_part s.now shape)) (assigned_at s.now shape u)) (upto shape.updates) }
{
    let nodes = node_records(s, shape);
    (0..shape.updates).all(|u| update_fits(s, shape, nodes, u))
}

// None of the first `size` nodes is used twice.
fn none_twice(uses: &[u8], size: u16) -> bool
    requires { size ≤ length uses.now }
    ensures { result ≡ all (λ n. leb (get_or uses.now n 0) 1) (upto size) }
{
    (0..size).all(|n| uses[n as usize] <= 1)
}

// By what `test_nodes` found of the nodes.
pub fn table_nodes_fit(s: &[u8], shape: Shape, fit: bool, uses: &[u8]) -> bool
    requires { IsShape s.now shape × (fit ≡ operands_fit (node_at (node_part s.now shape)) shape.nodes) × (uses.now ≡ add_uses (replicate 1024 0) (all_operands (node_at (node_part s.now shape)) shape.nodes)) }
    ensures { result ≡ table_nodes_fit (read_automata s.now) }
{
    fit & guards_fit(s, shape) & updates_fit(s, shape) & none_twice(uses, shape.nodes)
}
