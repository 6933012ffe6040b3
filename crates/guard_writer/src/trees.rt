// The text of a tree, written into a lent buffer from a place on; each function answers the place behind what it wrote. Bytes past the end are counted and not
// written, so a text must end near enough for its place not to wrap. An operand is lower than its node, so the node's number bounds the calls.
ghost use Rattle.std.specs.Prelude.{◌≡◌, true, ◌+◌, ◌*◌, ◌≤◌, ◌<◌, ◌^◌};
ghost use Rattle.records.specs.Bytes.{byte};
ghost use Rattle.records.specs.Wrote.{Wrote};
ghost use Rattle.model.specs.Replay.{decimal};
ghost use Rattle.expressions.specs.Nodes.{node_at};
ghost use Rattle.guards.specs.Trees.{constant, variable, negation, binary, choice, binary_level, level as levelOf};
ghost use Rattle.guards.specs.Texts.{sign, text_of, text_in};
ghost use Rattle.guards.specs.Lists.{tree_of};
ghost use Rattle.guard_writer.specs.Codes.{code_binary};
ghost use Rattle.guard_writer.specs.Operands.{operand_tree, Near};

use super::operators::{first_byte, level_at, second_byte};
use expressions::nodes::fields_at;
use lines::{put_char, put_decimal, put_text};
use records::{byte_at, i32_at, u16_at};

fn put_sign(code: u8, out: &mut [u8], at: usize) -> usize
    requires { Near at (sign (code_binary code)) }
    ensures { Wrote out.old at (sign (code_binary code)) out.new result }
{
    let next = put_char(out, at, first_byte(code));
    match second_byte(code) {
        None => next,
        Some(b) => put_char(out, next, b),
    }
}

// Most numbers of a guard have one digit.
fn put_number(n: u32, out: &mut [u8], at: usize) -> usize
    requires { at < 2 ^ 62 }
    ensures { Wrote out.old at (decimal n) out.new result }
{
    if n < 10 {
        return put_char(out, at, b'0' + (n as u8));
    }
    put_decimal(out, at, n)
}

#[tactic(auto, unfolding(guards::specs::Texts::text_of))]
fn put_constant(z: i32, out: &mut [u8], at: usize) -> usize
    requires { Near at (text_of (constant z)) }
    ensures { Wrote out.old at (text_of (constant z)) out.new result }
{
    if z < 0 {
        let next = put_text(out, at, b"-");
        put_number(z.unsigned_abs(), out, next)
    } else {
        put_number(z as u32, out, at)
    }
}

fn put_variable(v: u16, out: &mut [u8], at: usize) -> usize
    requires { Near at (text_of (variable v)) }
    ensures { Wrote out.old at (text_of (variable v)) out.new result }
{
    let next = put_text(out, at, b"v");
    put_number(v as u32, out, next)
}

// A node that has no operator; an unknown one is 0.
fn put_leaf(nodes: &[u8], n: u16, out: &mut [u8], at: usize) -> usize
    requires { (levelOf (tree_of (node_at nodes.now) n) ≡ 0) × Near at (text_of (tree_of (node_at nodes.now) n)) }
    ensures { Wrote out.old at (text_of (tree_of (node_at nodes.now) n)) out.new result }
{
    let place = 16 * (n as usize);
    let code = byte_at(nodes, place + 1);
    if code == 2 {
        return put_variable(u16_at(nodes, place + 2), out, at);
    }
    if code == 1 {
        return put_constant(i32_at(nodes, place + 8), out, at);
    }
    put_text(out, at, b"0")
}

// Operand a of node n, in a place that takes levels up to k; one that is not lower is 0. `nodes` is lent anew to each call, which keeps it in registers.
#[cycle(tree)]
fn put_operand(nodes: &[u8], n: u16, k: u8, a: u16, out: &mut [u8], at: usize) -> usize
    requires { Near at (text_in k (operand_tree (node_at nodes.now) n a)) }
    ensures { Wrote out.old at (text_in k (operand_tree (node_at nodes.now) n a)) out.new result }
{
    if n <= a {
        return put_text(out, at, b"0");
    }
    let own = level_at(nodes, a);
    if own == 0 {
        return put_leaf(&*nodes, a, out, at);
    }
    if own <= k {
        return put_node(&*nodes, a, own, out, at);
    }
    let inside = put_text(out, at, b"(");
    let behind = put_node(&*nodes, a, own, out, inside);
    put_text(out, behind, b")")
}

// Whether operand a of node n is lower, and a negation.
fn is_negation(nodes: &[u8], n: u16, a: u16) -> bool
    ensures { result ≡ true → (a < n) × (byte nodes.now (16 * a + 1) ≡ 19) }
{
    if n <= a {
        return false;
    }
    byte_at(nodes, 16 * (a as usize) + 1) == 19
}

// Negations alone nest in as many levels as there are nodes, so that one of another takes no frames of `put_node` and `put_operand`.
#[cycle(tree)]
fn put_negation(nodes: &[u8], n: u16, a: u16, out: &mut [u8], at: usize) -> usize
    requires { Near at (text_of (negation (operand_tree (node_at nodes.now) n a))) }
    ensures { Wrote out.old at (text_of (negation (operand_tree (node_at nodes.now) n a))) out.new result }
{
    let next = put_text(out, at, b"!");
    if is_negation(nodes, n, a) {
        return put_negation(nodes, a, u16_at(nodes, 16 * (a as usize) + 2), out, next);
    }
    put_operand(nodes, n, 1, a, out, next)
}

// Equal levels group to the left, so the right operand binds tighter than its operator.
#[cycle(tree)]
fn put_binary(
    nodes: &[u8],
    n: u16,
    code: u8,
    k: u8,
    a: u16,
    b: u16,
    out: &mut [u8],
    at: usize,
) -> usize
    requires { (k ≡ binary_level (code_binary code)) × Near at (text_of (binary (code_binary code) (operand_tree (node_at nodes.now) n a) (operand_tree (node_at nodes.now) n b))) }
    ensures { Wrote out.old at (text_of (binary (code_binary code) (operand_tree (node_at nodes.now) n a) (operand_tree (node_at nodes.now) n b))) out.new result }
{
    let sign_at = put_operand(nodes, n, k, a, out, at);
    let right_at = put_sign(code, out, sign_at);
    put_operand(nodes, n, k - 1, b, out, right_at)
}

// A choice stands bare between `?` and `:`, and behind it.
#[cycle(tree)]
fn put_choice(nodes: &[u8], n: u16, t: u16, a: u16, b: u16, out: &mut [u8], at: usize) -> usize
    requires { Near at (text_of (choice (operand_tree (node_at nodes.now) n t) (operand_tree (node_at nodes.now) n a) (operand_tree (node_at nodes.now) n b))) }
    ensures { Wrote out.old at (text_of (choice (operand_tree (node_at nodes.now) n t) (operand_tree (node_at nodes.now) n a) (operand_tree (node_at nodes.now) n b))) out.new result }
{
    let asked = put_operand(nodes, n, 6, t, out, at);
    let first_at = put_text(out, asked, b"?");
    let first = put_operand(nodes, n, 7, a, out, first_at);
    let second_at = put_text(out, first, b":");
    put_operand(nodes, n, 7, b, out, second_at)
}

// A node that has an operator, of level k: 1 a negation, 7 a choice, and between them two operands.
#[cycle(tree)]
fn put_node(nodes: &[u8], n: u16, k: u8, out: &mut [u8], at: usize) -> usize
    requires { (k ≡ levelOf (tree_of (node_at nodes.now) n)) × (1 ≤ k) × Near at (text_of (tree_of (node_at nodes.now) n)) }
    ensures { Wrote out.old at (text_of (tree_of (node_at nodes.now) n)) out.new result }
{
    let f = fields_at(nodes, n);
    if k == 1 {
        return put_negation(&*nodes, n, f.a, out, at);
    }
    if k == 7 {
        return put_choice(nodes, n, f.a, f.b, f.c, out, at);
    }
    put_binary(nodes, n, f.code, k, f.a, f.b, out, at)
}

pub fn put_tree(nodes: &[u8], n: u16, out: &mut [u8], at: usize) -> usize
    requires { Near at (text_of (tree_of (node_at nodes.now) n)) }
    ensures { Wrote out.old at (text_of (tree_of (node_at nodes.now) n)) out.new result }
{
    let k = level_at(nodes, n);
    if k == 0 {
        return put_leaf(nodes, n, out, at);
    }
    put_node(nodes, n, k, out, at)
}
