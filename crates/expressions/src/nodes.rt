// Nodes as their records have them.
ghost use Rattle.std.specs.Prelude.{◌≡◌};
ghost use Rattle.expressions.specs.Nodes.{node_by, node_at};
ghost use Rattle.expressions.specs.Answers.{node_for};
ghost use Rattle.expressions.specs.Coded.{HasFields};

use records::{byte_at, i32_at, u16_at, u16_within};

#[derive(Clone, Copy)]
pub enum Operator {
    Sum,
    Difference,
    Product,
    Quotient,
    Remainder,
}

#[derive(Clone, Copy)]
pub enum Relation {
    Equal,
    Less,
    AtMost,
}

// An operator with the numbers of its operands, or with its constant, or with the number of its variable.
#[derive(Clone, Copy)]
pub enum Node {
    Constant(i32),
    Variable(u16),
    Arithmetic(Operator, u16, u16),
    Choice(u16, u16, u16),
    Comparison(Relation, u16, u16),
    Negation(u16),
    Both(u16, u16),
    Either(u16, u16),
    Unknown,
}

// The node of an operator's code, three operands and a constant.
#[tactic(auto, unfolding(prelude::specs::Lists::case_of))]
fn decode(code: u8, a: u16, b: u16, c: u16, z: i32) -> Node
    ensures { node_for result ≡ node_by code a b c z }
{
    match code {
        1 => Node::Constant(z),
        2 => Node::Variable(a),
        3 => Node::Arithmetic(Operator::Sum, a, b),
        4 => Node::Arithmetic(Operator::Difference, a, b),
        5 => Node::Arithmetic(Operator::Product, a, b),
        6 => Node::Arithmetic(Operator::Quotient, a, b),
        7 => Node::Arithmetic(Operator::Remainder, a, b),
        8 => Node::Choice(a, b, c),
        16 => Node::Comparison(Relation::Equal, a, b),
        17 => Node::Comparison(Relation::Less, a, b),
        18 => Node::Comparison(Relation::AtMost, a, b),
        19 => Node::Negation(a),
        20 => Node::Both(a, b),
        21 => Node::Either(a, b),
        _ => Node::Unknown,
    }
}

// The operator's code and the operands of a record.
#[derive(Clone, Copy)]
pub struct Fields {
    pub code: u8,
    pub a: u16,
    pub b: u16,
    pub c: u16,
}

// One length test where the fields are within.
pub fn fields_at(nodes: &[u8], n: u16) -> Fields
    ensures { HasFields nodes.now n result }
{
    let at = 16 * (n as usize);
    if at + 8 <= nodes.len() {
        Fields {
            code: nodes[at + 1],
            a: u16_within(nodes, at + 2),
            b: u16_within(nodes, at + 4),
            c: u16_within(nodes, at + 6),
        }
    } else {
        Fields {
            code: byte_at(nodes, at + 1),
            a: u16_at(nodes, at + 2),
            b: u16_at(nodes, at + 4),
            c: u16_at(nodes, at + 6),
        }
    }
}

pub fn node_at(nodes: &[u8], n: u16) -> Node
    ensures { node_for result ≡ node_at nodes.now n }
{
    let f = fields_at(nodes, n);
    decode(f.code, f.a, f.b, f.c, i32_at(nodes, 16 * (n as usize) + 8))
}
