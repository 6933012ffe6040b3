// How many bytes are enough for the line of a list that is one tree, in one pass and without the tree. Why a list is no tree is not told here.
ghost use Rattle.std.specs.Prelude.{◌≡◌, cond, ℕ, ◌*◌, ◌≤◌, ◌<◌, ltb, length, IfSome};
ghost use Rattle.model.specs.Replay.{decimal};
ghost use Rattle.expressions.specs.Nodes.{node_at};
ghost use Rattle.expressions.specs.Sorts.{a_truth, a_number};
ghost use Rattle.expressions.specs.Answers.{sort_for};
ghost use Rattle.expressions.specs.Uses.{operand_numbers, all_operands, add_uses};
ghost use Rattle.guards.specs.Trees.{constant, level as levelOf};
ghost use Rattle.guards.specs.Texts.{sign, text_of};
ghost use Rattle.guards.specs.Lists.{tree_of};
ghost use Rattle.guard_writer.specs.Codes.{code_binary, code_sort};
ghost use Rattle.guard_writer.specs.Measures.{Around, Own, OwnAll, Passes, Fits};

use super::lists::one_tree;
use super::operators::{level, second_byte};
use expressions::nodes::fields_at;
use expressions::sorts::{Sort, add_use};
use records::sizes::NODES;
use records::{byte_at, i32_at, u16_at};

// A test for each length, in place of a division for each digit.
fn digits(n: u32) -> usize
    ensures { (result ≤ 10) × (length (decimal n) ≤ result) }
{
    if n < 10 {
        return 1;
    }
    if n < 100 {
        return 2;
    }
    if n < 1000 {
        return 3;
    }
    if n < 10000 {
        return 4;
    }
    if n < 100000 {
        return 5;
    }
    if n < 1000000 {
        return 6;
    }
    if n < 10000000 {
        return 7;
    }
    if n < 100000000 {
        return 8;
    }
    if n < 1000000000 {
        return 9;
    }
    10
}

// A negative number has its sign, too.
#[tactic(auto, unfolding(guards::specs::Texts::text_of))]
fn constant_bytes(z: i32) -> usize
    ensures { (result ≤ 11) × (length (text_of (constant z)) ≤ result) }
{
    let bytes = digits(z.unsigned_abs());
    if z < 0 { 1 + bytes } else { bytes }
}

// A variable past the last, and an unknown operator, are no part of a tree.
fn leaf_bytes(nodes: &[u8], n: u16) -> Option<usize>
    requires { levelOf (tree_of (node_at nodes.now) n) ≡ 0 }
    ensures { IfSome result (λ b. Own (node_at nodes.now) n b × Passes (node_at nodes.now) n) }
{
    let place = 16 * (n as usize);
    let code = byte_at(nodes, place + 1);
    if code == 2 {
        let v = u16_at(nodes, place + 2);
        if 63 < v {
            return None;
        }
        return Some(1 + digits(v as u32));
    }
    if code == 1 {
        return Some(constant_bytes(i32_at(nodes, place + 8)));
    }
    None
}

fn sign_bytes(code: u8) -> usize
    ensures { (result ≤ 2) × (length (sign (code_binary code)) ≤ result) }
{
    match second_byte(code) {
        None => 1,
        Some(_) => 2,
    }
}

fn is_sort(code: u8, sort: Sort) -> bool
    ensures { result ≡ code_sort code (sort_for sort) }
{
    match sort {
        Sort::Number => (1 <= code) & (code <= 8),
        Sort::Truth => (16 <= code) & (code <= 21),
    }
}

// Operand a of node n, which must have a sort.
fn operand_bytes(nodes: &[u8], n: u16, k: u8, a: u16, sort: Sort) -> Option<usize>
    requires { 16 * n ≤ length nodes.now }
    ensures { IfSome result (λ b. Around (node_at nodes.now) n k a (sort_for sort) b) }
{
    if n <= a {
        return None;
    }
    let code = nodes[16 * (a as usize) + 1];
    if !is_sort(code, sort) {
        return None;
    }
    Some(if level(code) <= k { 0 } else { 2 })
}

// The sort of both operands of an operator of two.
fn operand_sort(code: u8) -> Sort
    ensures { sort_for result ≡ cond (ltb 19 code) a_truth a_number }
{
    if 19 < code { Sort::Truth } else { Sort::Number }
}

fn node_bytes(nodes: &[u8], n: u16, uses: &mut [u8]) -> Option<usize>
    requires { 16 * n ≤ length nodes.now }
    ensures { IfSome result (λ b. Own (node_at nodes.now) n b × Passes (node_at nodes.now) n × (uses.new ≡ add_uses uses.old (operand_numbers (node_at nodes.now n)))) }
{
    let f = fields_at(nodes, n);
    let code = f.code;
    let k = level(code);
    if k == 0 {
        return leaf_bytes(nodes, n);
    }
    if k == 1 {
        add_use(uses, f.a);
        return Some(1 + operand_bytes(nodes, n, 1, f.a, Sort::Truth)?);
    }
    if k == 7 {
        add_use(uses, f.a);
        add_use(uses, f.b);
        add_use(uses, f.c);
        return Some(
            2 + operand_bytes(nodes, n, 6, f.a, Sort::Truth)?
                + operand_bytes(nodes, n, 7, f.b, Sort::Number)?
                + operand_bytes(nodes, n, 7, f.c, Sort::Number)?,
        );
    }
    add_use(uses, f.a);
    add_use(uses, f.b);
    let sort = operand_sort(code);
    Some(
        sign_bytes(code)
            + operand_bytes(nodes, n, k, f.a, sort)?
            + operand_bytes(nodes, n, k - 1, f.b, sort)?,
    )
}

// One pass: each node is tested by itself, and its operands are counted as uses.
fn all_bytes(nodes: &[u8], size: u16, uses: &mut [u8]) -> Option<usize>
    requires { 16 * size ≤ length nodes.now }
    ensures { IfSome result (λ b. OwnAll (node_at nodes.now) size b × ((n : ℕ) → n < size → Passes (node_at nodes.now) n) × (uses.new ≡ add_uses uses.old (all_operands (node_at nodes.now) size))) }
{
    let mut bytes: usize = 0;
    for n in 0..size {
        bytes += node_bytes(nodes, n, uses)?;
    }
    Some(bytes)
}

// Bytes that are enough for the line of a list that is one tree.
pub fn tree_bytes(nodes: &[u8]) -> Option<usize>
    ensures { IfSome result (λ b. Fits nodes.now b) }
{
    let whole = nodes.len() / 16;
    if NODES < whole {
        return None;
    }
    let size = whole as u16;
    let mut uses = [0u8; NODES];
    let bytes = all_bytes(nodes, size, &mut uses)?;
    one_tree(nodes, size, true, &uses).then_some(bytes)
}
