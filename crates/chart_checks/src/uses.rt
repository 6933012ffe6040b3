// Refusal 8: operands, guards that are truths, assigned nodes that are numbers, and every node used exactly once.
ghost use Rattle.std.specs.Prelude.{◌≡◌, true, ◌&&◌, ◌≤◌, eqb, length, get_or, replicate, ◌++◌};
ghost use Rattle.model.specs.Limits.{most_nodes};
ghost use Rattle.prelude.specs.Lists.{all, upto};
ghost use Rattle.records.specs.Bytes.{records};
ghost use Rattle.expressions.specs.Nodes.{node_of, node_at};
ghost use Rattle.expressions.specs.Sorts.{operands_fit};
ghost use Rattle.expressions.specs.Uses.{add_uses};
ghost use Rattle.model.specs.ChartSet.{read_charts};
ghost use Rattle.model.specs.ChartFile as file;
ghost use Rattle.chart_records.specs.Shape.{IsShape};
ghost use Rattle.chart_records.specs.Places.{node_part};
ghost use Rattle.chart_records.specs.Parts.{guard_for, deed_for};
ghost use Rattle.prelude.specs.Lists.{gather};
ghost use Rattle.chart_checks.specs.Used.{guard_at, condition_at, assigned_at, operand_use, guard_use, action_use, all_uses, truths, numbers};

use chart_records::Shape;
use chart_records::fields::{Deed, condition_of, deed_of, guard_of, node_records};
use expressions::sorts::{add_use, is_number, is_truth};

// A guard is a truth.
#[tactic(auto, unfolding(prelude::specs::Lists::all))]
pub fn guard_sorted(guard: Option<u16>, nodes: &[u8]) -> bool
    ensures { result ≡ truths (node_at nodes.now) (file.guard_nodes (guard_for guard)) }
{
    guard.is_none_or(|n| is_truth(nodes, n))
}

#[tactic(auto, unfolding(expressions::specs::Uses::add_uses))]
fn count_guard(guard: Option<u16>, uses: &mut [u8])
    ensures { uses.new ≡ add_uses uses.old (file.guard_nodes (guard_for guard)) }
{
    if let Some(n) = guard {
        add_use(uses, n);
    }
}

fn guard_fits(s: &[u8], shape: Shape, nodes: &[u8], t: u16, uses: &mut [u8]) -> bool
    ensures { (result ≡ truths (node_at nodes.now) (guard_at s.now shape t)) × (uses.new ≡ add_uses uses.old (guard_at s.now shape t)) }
{
    let guard = guard_of(s, shape, t);
    count_guard(guard, uses);
    guard_sorted(guard, nodes)
}

// Counts them too, so that each is read once.
fn guards_fit(s: &[u8], shape: Shape, uses: &mut [u8]) -> bool
    requires { IsShape s.now shape }
    ensures { (result ≡ truths (node_of (read_charts s.now).nodes) (file.transition_guards (read_charts s.now))) × (uses.new ≡ add_uses uses.old (guard_use s.now shape)) }
{
    let nodes = node_records(s, shape);
    let mut fit = true;
    for t in 0..shape.transitions {
        fit &= guard_fits(s, shape, nodes, t, uses);
    }
    fit
}

// An assigned node is a number.
#[tactic(auto, unfolding(prelude::specs::Lists::all))]
pub fn deed_sorted(deed: Deed, nodes: &[u8]) -> bool
    ensures { result ≡ numbers (node_at nodes.now) (file.assigned_nodes (deed_for deed)) }
{
    match deed {
        Deed::Assign(_, n) => is_number(nodes, n),
        Deed::Raise(_) => true,
    }
}

#[tactic(auto, unfolding(expressions::specs::Uses::add_uses))]
fn count_assigned(deed: Deed, uses: &mut [u8])
    ensures { uses.new ≡ add_uses uses.old (file.assigned_nodes (deed_for deed)) }
{
    if let Deed::Assign(_, n) = deed {
        add_use(uses, n);
    }
}

#[tactic(auto, using(crate::proofs::Used::appended))]
fn action_fits(s: &[u8], shape: Shape, nodes: &[u8], i: u16, uses: &mut [u8]) -> bool
    ensures { (result ≡ (truths (node_at nodes.now) (condition_at s.now shape i) && numbers (node_at nodes.now) (assigned_at s.now shape i)))
        × (uses.new ≡ add_uses uses.old (condition_at s.now shape i ++ assigned_at s.now shape i)) }
{
    let guard = condition_of(s, shape, i);
    let deed = deed_of(s, shape, i);
    count_guard(guard, uses);
    count_assigned(deed, uses);
    guard_sorted(guard, nodes) & deed_sorted(deed, nodes)
}

// Their guards and their assigned nodes, which it counts too. All actions have a place, so no place is asked for.
fn actions_fit(s: &[u8], shape: Shape, uses: &mut [u8]) -> bool
    requires { IsShape s.now shape × (all file.in_code (records s.now) ≡ true) }
    ensures { (result ≡ (truths (node_of (read_charts s.now).nodes) (file.action_guards (read_charts s.now)) && numbers (node_of (read_charts s.now).nodes) (file.assigned (read_charts s.now))))
        × (uses.new ≡ add_uses uses.old (action_use s.now shape)) }
{
    let nodes = node_records(s, shape);
    let mut fit = true;
    for i in 0..shape.actions {
        fit &= action_fits(s, shape, nodes, i, uses);
    }
    fit
}

// Each of the first `size` nodes is used once.
fn all_once(uses: &[u8], size: u16) -> bool
    requires { size ≤ length uses.now }
    ensures { result ≡ all (λ n. eqb (get_or uses.now n 0) 1) (upto size) }
{
    (0..size).all(|n| uses[n as usize] == 1)
}

// Of a framed file whose codes and ranges are kept, by what `test_nodes` found of its nodes' operands; `uses` has those as operands.
pub fn nodes_fit(s: &[u8], shape: Shape, fit: bool, uses: &mut [u8]) -> bool
    requires { IsShape s.now shape × (all file.in_code (records s.now) ≡ true) × (fit ≡ operands_fit (node_at (node_part s.now shape)) shape.nodes) × (uses.old ≡ add_uses (replicate most_nodes 0) (operand_use s.now shape)) }
    ensures { (result ≡ file.nodes_fit (read_charts s.now)) × (uses.new ≡ all_uses s.now shape) }
{
    let guards = guards_fit(s, shape, uses);
    let actions = actions_fit(s, shape, uses);
    fit & guards & actions & all_once(uses, shape.nodes)
}
