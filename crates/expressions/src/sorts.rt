// Sorts, order and use of nodes, which the checks of a file ask of.
ghost use Rattle.std.specs.Prelude.{◌≡◌, map, ◌+◌, min, ltb, ℤ};
ghost use Rattle.prelude.specs.Lists.{all};
ghost use Rattle.expressions.specs.Nodes.{node_at};
ghost use Rattle.expressions.specs.Sorts.{sort_of, is_number, is_truth, same_sort, operands, variables_of, nodes_named, operand_fits, operands_fit};
ghost use Rattle.expressions.specs.Uses.{all_operands, add_use, add_uses};
ghost use Rattle.expressions.specs.Answers.{sort_for, operands_for};
ghost use Rattle.expressions.specs.Coded.{coded_node};

use super::nodes::{Fields, fields_at};
use records::byte_at;

#[derive(Clone, Copy)]
pub enum Sort {
    Number,
    Truth,
}

// The operands of a node, left to right, with the sort that each must have: of a choice a truth and two numbers.
#[derive(Clone, Copy)]
pub enum Operands {
    Leaf,
    One(Sort, u16),
    Two(Sort, u16, u16),
    Choice(u16, u16, u16),
}

#[tactic(auto, unfolding(prelude::specs::Lists::case_of))]
pub fn is_number(nodes: &[u8], n: u16) -> bool
    ensures { result ≡ is_number (sort_of (node_at nodes.now n)) }
{
    let code = byte_at(nodes, 16 * (n as usize) + 1);
    (1 <= code) & (code <= 8)
}

#[tactic(auto, unfolding(prelude::specs::Lists::case_of))]
pub fn is_truth(nodes: &[u8], n: u16) -> bool
    ensures { result ≡ is_truth (sort_of (node_at nodes.now n)) }
{
    let code = byte_at(nodes, 16 * (n as usize) + 1);
    (16 <= code) & (code <= 21)
}

pub fn has_sort(nodes: &[u8], n: u16, sort: Sort) -> bool
    ensures { result ≡ same_sort (sort_for sort) (sort_of (node_at nodes.now n)) }
{
    match sort {
        Sort::Number => is_number(nodes, n),
        Sort::Truth => is_truth(nodes, n),
    }
}

// By the code: 3 to 7 and 16 to 18 take two numbers, 8 a truth and two numbers, 19 a truth, 20 and 21 two.
#[tactic(auto, unfolding(prelude::specs::Lists::case_of))]
fn operands_of(f: Fields) -> Operands
    ensures { (z : ℤ) → operands_for result ≡ operands (coded_node f z) }
{
    let code = f.code;
    if code < 3 {
        return Operands::Leaf;
    }
    if code < 8 {
        return Operands::Two(Sort::Number, f.a, f.b);
    }
    if code == 8 {
        return Operands::Choice(f.a, f.b, f.c);
    }
    if code < 16 {
        return Operands::Leaf;
    }
    if code < 19 {
        return Operands::Two(Sort::Number, f.a, f.b);
    }
    if code == 19 {
        return Operands::One(Sort::Truth, f.a);
    }
    if code < 22 {
        return Operands::Two(Sort::Truth, f.a, f.b);
    }
    Operands::Leaf
}

#[tactic(auto, unfolding(prelude::specs::Lists::all))]
fn all_below(o: Operands, size: u16) -> bool
    ensures { result ≡ all (λ k. ltb k.0 size) (operands_for o) }
{
    match o {
        Operands::Leaf => true,
        Operands::One(_, a) => a < size,
        Operands::Two(_, a, b) => (a < size) & (b < size),
        Operands::Choice(t, a, b) => (t < size) & (a < size) & (b < size),
    }
}

#[tactic(auto, unfolding(prelude::specs::Lists::case_of, prelude::specs::Lists::all))]
fn variable_below(f: Fields, variables: u16) -> bool
    ensures { (z : ℤ) → result ≡ all (λ v. ltb v variables) (variables_of (coded_node f z)) }
{
    if f.code == 2 { f.a < variables } else { true }
}

fn operand_fits(nodes: &[u8], n: u16, k: u16, sort: Sort) -> bool
    ensures { result ≡ operand_fits (node_at nodes.now) n (k, sort_for sort) }
{
    (k < n) & has_sort(nodes, k, sort)
}

#[tactic(auto, unfolding(prelude::specs::Lists::all))]
fn all_fit(nodes: &[u8], n: u16, o: Operands) -> bool
    ensures { result ≡ all (operand_fits (node_at nodes.now) n) (operands_for o) }
{
    match o {
        Operands::Leaf => true,
        Operands::One(s, a) => operand_fits(nodes, n, a, s),
        Operands::Two(s, a, b) => operand_fits(nodes, n, a, s) & operand_fits(nodes, n, b, s),
        Operands::Choice(t, a, b) => {
            operand_fits(nodes, n, t, Sort::Truth)
                & operand_fits(nodes, n, a, Sort::Number)
                & operand_fits(nodes, n, b, Sort::Number)
        }
    }
}

// A count stops at 2: tests ask for none, once or more, and the count then fits its byte.
fn one_more(used: u8) -> u8
    ensures { result ≡ min 2 (used + 1) }
{
    if used == 0 { 1 } else { 2 }
}

// A use of node k, where `uses` has a place for it.
pub fn add_use(uses: &mut [u8], k: u16)
    ensures { uses.new ≡ add_use uses.old k }
{
    let i = k as usize;
    if i < uses.len() {
        let used = uses[i];
        uses[i] = one_more(used);
    }
}

#[tactic(auto, unfolding(crate::specs::Uses::add_uses))]
fn count_uses(uses: &mut [u8], o: Operands)
    ensures { uses.new ≡ add_uses uses.old (map (λ k. k.0) (operands_for o)) }
{
    match o {
        Operands::Leaf => {}
        Operands::One(_, a) => add_use(uses, a),
        Operands::Two(_, a, b) => {
            add_use(uses, a);
            add_use(uses, b);
        }
        Operands::Choice(t, a, b) => {
            add_use(uses, t);
            add_use(uses, a);
            add_use(uses, b);
        }
    }
}

// Whether each operand is a node and each variable one of the file, and whether each operand is lower than its node and of the right sort.
#[derive(Clone, Copy)]
pub struct NodeTests {
    pub named: bool,
    pub fit: bool,
}

// One pass over `size` nodes, each read once: both tests, with the uses of nodes as operands.
pub fn test_nodes(nodes: &[u8], size: u16, variables: u16, uses: &mut [u8]) -> NodeTests
    ensures named { result.named ≡ nodes_named (node_at nodes.now) size variables }
    ensures fit { result.fit ≡ operands_fit (node_at nodes.now) size }
    ensures uses { uses.new ≡ add_uses uses.old (all_operands (node_at nodes.now) size) }
{
    let mut tests = NodeTests {
        named: true,
        fit: true,
    };
    for n in 0..size {
        let f = fields_at(nodes, n);
        let o = operands_of(f);
        tests.named = tests.named & (all_below(o, size) & variable_below(f, variables));
        tests.fit = tests.fit & all_fit(nodes, n, o);
        count_uses(uses, o);
    }
    tests
}

// Its parts, where one alone is asked for.
pub fn nodes_named(nodes: &[u8], size: u16, variables: u16) -> bool
    ensures { result ≡ nodes_named (node_at nodes.now) size variables }
{
    let mut uses = [0u8; 1];
    test_nodes(nodes, size, variables, &mut uses).named
}

pub fn operands_fit(nodes: &[u8], size: u16) -> bool
    ensures { result ≡ operands_fit (node_at nodes.now) size }
{
    let mut uses = [0u8; 1];
    test_nodes(nodes, size, 0, &mut uses).fit
}

pub fn count_operands(nodes: &[u8], size: u16, uses: &mut [u8])
    ensures { uses.new ≡ add_uses uses.old (all_operands (node_at nodes.now) size) }
{
    test_nodes(nodes, size, 0, uses);
}
