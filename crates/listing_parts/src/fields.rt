// Fields of a record, which is a slice of its own, and the parts of a line that sets and tables share.
ghost use Rattle.std.specs.Prelude.{◌≡◌, ◌≤◌, ◌<◌, ◌^◌, length};
ghost use Rattle.records.specs.Bytes.{byte, two as twoBytes};
ghost use Rattle.expressions.specs.Nodes.{choice, read_node};
ghost use Rattle.expressions.specs.Answers.{operator_of, relation_of, node_for};
ghost use Rattle.model.specs.ChartSet.{read_guard, read_plus_one, read_variable};
ghost use Rattle.chart_records.specs.Parts.{deed_for};
ghost use Rattle.listing_parts.specs.Parts.{WroteNear, guard_text, deed_text, condition_text, action_text, variable_text, operands_text, arithmetic_text, comparison_text, operator_text, node_text};

use super::texts::{put_named, put_signed, put_word};
use chart_records::fields::{Deed, guard_by, guard_by_plus_one};
use expressions::nodes::{Node, Operator, Relation, node_at};
use records::{byte_at, u16_at, unsigned32};

pub fn one(r: &[u8], k: usize) -> u32
    ensures { result ≡ byte r.now k }
{
    byte_at(r, k) as u32
}

pub fn two(r: &[u8], k: usize) -> u32
    ensures { (result ≡ twoBytes r.now k) × (result < 2 ^ 16) }
{
    u16_at(r, k) as u32
}

pub fn put_guard(out: &mut [u8], at: usize, node: u16) -> usize
    requires { at < 2 ^ 19 }
    ensures { WroteNear 32 out.old at (guard_text (read_guard node)) out.new result }
{
    match guard_by(node) {
        None => put_word(out, at, b", no guard"),
        Some(n) => put_named(out, at, b", guard node ", n as u32),
    }
}

fn put_deed(out: &mut [u8], at: usize, deed: Deed) -> usize
    requires { at < 2 ^ 19 }
    ensures { WroteNear 64 out.old at (deed_text (deed_for deed)) out.new result }
{
    match deed {
        Deed::Assign(v, n) => {
            let next = put_named(out, at, b": variable ", v as u32);
            put_named(out, next, b" := node ", n as u32)
        }
        Deed::Raise(e) => put_named(out, at, b": raise event ", e as u32),
    }
}

fn put_condition(out: &mut [u8], at: usize, guard: u16) -> usize
    requires { at < 2 ^ 19 }
    ensures { WroteNear 32 out.old at (condition_text (read_plus_one guard)) out.new result }
{
    match guard_by_plus_one(guard) {
        None => at,
        Some(n) => put_named(out, at, b", guard node ", n as u32),
    }
}

// An action or update, by its guard plus one and its deed.
pub fn put_conditional(out: &mut [u8], at: usize, guard: u16, deed: Deed) -> usize
    requires { at < 2 ^ 18 }
    ensures { WroteNear 96 out.old at (action_text (record { guard = read_plus_one guard; deed = deed_for deed })) out.new result }
{
    let condition = put_deed(out, at, deed);
    put_condition(out, condition, guard)
}

pub fn put_variable(out: &mut [u8], i: u32, r: &[u8]) -> usize
    ensures { WroteNear 256 out.old 0 (variable_text i (read_variable r.now)) out.new result }
{
    let lowest = put_named(out, 0, b"variable ", i);
    let highest = put_signed(out, lowest, b": ", two(r, 2), 32768);
    let start = put_signed(out, highest, b" to ", two(r, 4), 32768);
    put_signed(out, start, b", start ", two(r, 6), 32768)
}

// ---- nodes

// Two operands with what stands between them.
fn put_operands(out: &mut [u8], at: usize, a: u16, word: &[u8], b: u16) -> usize
    requires { (at < 2 ^ 19) × (length word.now ≤ 20) }
    ensures { WroteNear 64 out.old at (operands_text a word.now b) out.new result }
{
    let next = put_named(out, at, b": node ", a as u32);
    put_named(out, next, word, b as u32)
}

fn put_choice(out: &mut [u8], at: usize, a: u16, b: u16, c: u16) -> usize
    requires { at < 2 ^ 18 }
    ensures { WroteNear 96 out.old at (operator_text (choice a b c)) out.new result }
{
    let next = put_operands(out, at, a, b" ? node ", b);
    put_named(out, next, b" : node ", c as u32)
}

fn put_arithmetic(out: &mut [u8], at: usize, operator: Operator, a: u16, b: u16) -> usize
    requires { at < 2 ^ 18 }
    ensures { WroteNear 64 out.old at (arithmetic_text (operator_of operator) a b) out.new result }
{
    match operator {
        Operator::Sum => put_operands(out, at, a, b" + node ", b),
        Operator::Difference => put_operands(out, at, a, b" - node ", b),
        Operator::Product => put_operands(out, at, a, b" * node ", b),
        Operator::Quotient => put_operands(out, at, a, b" / node ", b),
        Operator::Remainder => put_operands(out, at, a, b" % node ", b),
    }
}

fn put_comparison(out: &mut [u8], at: usize, relation: Relation, a: u16, b: u16) -> usize
    requires { at < 2 ^ 18 }
    ensures { WroteNear 64 out.old at (comparison_text (relation_of relation) a b) out.new result }
{
    match relation {
        Relation::Equal => put_operands(out, at, a, b" = node ", b),
        Relation::Less => put_operands(out, at, a, b" < node ", b),
        Relation::AtMost => put_operands(out, at, a, b" <= node ", b),
    }
}

fn put_operator(out: &mut [u8], at: usize, node: Node) -> usize
    requires { at < 2 ^ 17 }
    ensures { WroteNear 96 out.old at (operator_text (node_for node)) out.new result }
{
    match node {
        Node::Constant(z) => put_signed(out, at, b": constant ", unsigned32(z), 2147483648),
        Node::Variable(v) => put_named(out, at, b": variable ", v as u32),
        Node::Arithmetic(operator, a, b) => put_arithmetic(out, at, operator, a, b),
        Node::Choice(a, b, c) => put_choice(out, at, a, b, c),
        Node::Comparison(relation, a, b) => put_comparison(out, at, relation, a, b),
        Node::Negation(a) => put_named(out, at, b": not node ", a as u32),
        Node::Both(a, b) => put_operands(out, at, a, b" and node ", b),
        Node::Either(a, b) => put_operands(out, at, a, b" or node ", b),
        Node::Unknown => put_word(out, at, b": unknown"),
    }
}

pub fn put_node(out: &mut [u8], i: u32, r: &[u8]) -> usize
    ensures { WroteNear 256 out.old 0 (node_text i (read_node r.now)) out.new result }
{
    let next = put_named(out, 0, b"node ", i);
    put_operator(out, next, node_at(r, 0))
}
