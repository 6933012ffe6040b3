// The tests of a list of nodes that is to be one guard.
ghost use Rattle.std.specs.Prelude.{◌≡◌, cond, suc, ◌≤◌, ◌/◌, eqb, length, get_or, replicate};
ghost use Rattle.prelude.specs.Lists.{all, upto};
ghost use Rattle.expressions.specs.Nodes.{node_at};
ghost use Rattle.expressions.specs.Sorts.{operands_fit};
ghost use Rattle.expressions.specs.Uses.{all_operands, add_uses};
ghost use Rattle.model.specs.Limits.{most_nodes};
ghost use Rattle.guards.specs.Lists.{is_known, is_one_tree};
ghost use Rattle.guard_writer.specs.Answers.{IsListed};

use expressions::sorts::{is_number, is_truth, test_nodes};
use records::refusals::Refusal;
use records::sizes::{NODES, VARIABLES};

// 5
fn all_known(nodes: &[u8], size: u16) -> bool
    ensures { result ≡ all (is_known (node_at nodes.now) size) (upto size) }
{
    (0..size).all(|n| is_number(nodes, n) | is_truth(nodes, n))
}

// How often node k of `size` is to be used: the last not at all, the others once.
fn due(k: u16, size: u16) -> u8
    requires { suc k ≤ size }
    ensures { result ≡ cond (eqb (suc k) size) 0 1 }
{
    if k + 1 == size { 0 } else { 1 }
}

fn all_due(uses: &[u8], size: u16) -> bool
    requires { size ≤ length uses.now }
    ensures { result ≡ all (λ k. eqb (get_or uses.now k 0) (cond (eqb (suc k) size) 0 1)) (upto size) }
{
    (0..size).all(|k| uses[k as usize] == due(k, size))
}

// 8, by what `test_nodes` told of the operands.
pub fn one_tree(nodes: &[u8], size: u16, fit: bool, uses: &[u8]) -> bool
    requires { (size ≤ most_nodes) × (fit ≡ operands_fit (node_at nodes.now) size) × (uses.now ≡ add_uses (replicate most_nodes 0) (all_operands (node_at nodes.now) size)) }
    ensures { result ≡ is_one_tree (node_at nodes.now) size }
{
    if size == 0 {
        return false;
    }
    fit & is_truth(nodes, size - 1) & all_due(uses, size)
}

// The number of the root.
#[tactic(auto, unfolding(records::specs::Refusal::lowest))]
pub fn list_refusal(nodes: &[u8]) -> Result<u16, Refusal>
    ensures { IsListed nodes.now result }
{
    let whole = nodes.len() / 16;
    if NODES < whole {
        return Err(Refusal::WrongAmounts);
    }
    let size = whole as u16;
    if !all_known(nodes, size) {
        return Err(Refusal::BrokenCode);
    }
    let mut uses = [0u8; NODES];
    let tests = test_nodes(nodes, size, VARIABLES as u16, &mut uses);
    if !tests.named {
        return Err(Refusal::DanglingNumber);
    }
    if !one_tree(nodes, size, tests.fit, &uses) {
        return Err(Refusal::BrokenNode);
    }
    Ok(size - 1)
}
