// What a node comes to, as a number and as a truth. Operands are lower than their node, so the node's number bounds the calls. Outcomes are plain numbers
// until the end, which stay in a register: as an enum or a Result, through memory, a guard of 1,024 nodes took up to four times as long (docs/DECISIONS.md,
// "Inner answers are one number", "Tried for evaluation and given up").
ghost use Rattle.std.specs.Prelude.{◌≡◌, cond, ◌&&◌, ℕ, ◌-◌, ◌*◌, ◌+◌, ltb, leb, eqb, get_or, pos};
ghost use Rattle.std.specs.Int.Signed.{le_z};
ghost use Rattle.records.specs.Refusal.{val, fault, choose};
ghost use Rattle.records.specs.Bytes.{byte, two};
ghost use Rattle.expressions.specs.Nodes.{node_at};
ghost use Rattle.expressions.specs.Values.{number, truth};
ghost use Rattle.expressions.specs.OperandValues.{operand_number, operand_truth, compute_operands, compare_operands, decide};
ghost use Rattle.expressions.specs.WholeRecords.{RecordAt};
ghost use Rattle.expressions.specs.Answers.{value_reason_of, number_of, truth_of};
ghost use Rattle.arithmetic.specs.Outcomes.{fault_of, StandsFor, TruthStandsFor};
ghost use Rattle.arithmetic.specs.Operators.{arithmetic_of, comparison_of};

use super::nodes::fields_at;
use super::outcomes::Reason;
use arithmetic::{HIGHEST, OUT_OF_RANGE, ZERO_DIVISOR, compare, compute, wide};
use records::sizes::Variables;
use records::{i32_at, i32_within, u16_within};

fn variable(vars: &[i16], v: u16) -> i64
    ensures { StandsFor result (val (get_or vars.now v (pos 0))) }
{
    let i = v as usize;
    if i < vars.len() { vars[i] as i64 } else { 0 }
}

fn truth_value(t: bool) -> u8
    ensures { result ≡ cond t 1 0 }
{
    t as u8
}

// A fault that a truth comes to, of a number, and the other way round.
fn number_fault(t: u8) -> i64
    ensures { StandsFor result (fault (fault_of (eqb t 2))) }
{
    if t == 2 { OUT_OF_RANGE } else { ZERO_DIVISOR }
}

fn truth_fault(z: i64) -> u8
    ensures { TruthStandsFor result (fault (fault_of (le_z z (pos 4294967296)))) }
{
    if z <= OUT_OF_RANGE { 2 } else { 3 }
}

fn negated(t: u8) -> u8
    ensures { result ≡ cond (ltb t 2) (1 - t) t }
{
    if t < 2 { 1 - t } else { t }
}

fn picked(first: bool, a: u16, b: u16) -> u16
    ensures { result ≡ cond first a b }
{
    if first { a } else { b }
}

// ---- nodes whose record is whole, as are those below: `at` is where it begins. A record's own bytes are read again after a call, which is
// cheaper than to keep them over it, and takes less stack.

// Operand a; one that is not lower counts as 0. A leaf is read here, without a call.
#[cycle(comparison_at_condition_number_below_operation_truth_below)]
fn number_below(nodes: &[u8], vars: &Variables, at: usize, a: u16) -> i64
    requires { RecordAt nodes.now at }
    ensures { (n : ℕ) → at ≡ 16 * n → StandsFor result (operand_number (node_at nodes.now) vars.now n a) }
{
    let to = 16 * (a as usize);
    if at <= to {
        return 0;
    }
    let code = nodes[to + 1];
    if code == 2 {
        return variable(vars, u16_within(nodes, to + 2));
    }
    if code == 1 {
        return wide(i32_within(nodes, to + 8));
    }
    operation(nodes, vars, to, code)
}

#[cycle(comparison_at_condition_number_below_operation_truth_below)]
fn truth_below(nodes: &[u8], vars: &Variables, at: usize, a: u16) -> u8
    requires { RecordAt nodes.now at }
    ensures { (n : ℕ) → at ≡ 16 * n → TruthStandsFor result (operand_truth (node_at nodes.now) vars.now n a) }
{
    let to = 16 * (a as usize);
    if to < at {
        condition(nodes, vars, to)
    } else {
        0
    }
}

// Two operands, left to right: the first fault ends it.
#[cycle(comparison_at_condition_number_below_operation_truth_below)]
fn comparison_at(nodes: &[u8], vars: &Variables, at: usize) -> u8
    requires { RecordAt nodes.now at }
    ensures { (n : ℕ) → at ≡ 16 * n → TruthStandsFor result (compare_operands (node_at nodes.now) vars.now (comparison_of (byte nodes.now (at + 1))) n (two nodes.now (at + 2)) (two nodes.now (at + 4))) }
{
    let x = number_below(nodes, vars, at, u16_within(nodes, at + 2));
    if HIGHEST < x {
        return truth_fault(x);
    }
    let y = number_below(nodes, vars, at, u16_within(nodes, at + 4));
    if HIGHEST < y {
        return truth_fault(y);
    }
    truth_value(compare(nodes[at + 1], x, y))
}

// A number that is no leaf, by its code: 3 to 7 two numbers, of which the first fault ends it, 8 a choice. The truth picks by a branch: a processor goes
// on with the number before it has the truth.
#[cycle(comparison_at_condition_number_below_operation_truth_below)]
fn operation(nodes: &[u8], vars: &Variables, at: usize, code: u8) -> i64
    requires record_at { RecordAt nodes.now at }
    requires code_value { code ≡ byte nodes.now (at + 1) }
    requires fact { (code ≡ 1 → ⊥) × (code ≡ 2 → ⊥) }
    ensures { (n : ℕ) → at ≡ 16 * n → StandsFor result (number (node_at nodes.now) vars.now n) }
{
    if 2 < code && code < 8 {
        let x = number_below(nodes, vars, at, u16_within(nodes, at + 2));
        if HIGHEST < x {
            return x;
        }
        let y = number_below(nodes, vars, at, u16_within(nodes, at + 4));
        if HIGHEST < y {
            return y;
        }
        return compute(nodes[at + 1], x, y);
    }
    if code == 8 {
        let first = truth_below(nodes, vars, at, u16_within(nodes, at + 2));
        if 1 < first {
            return number_fault(first);
        }
        if first == 1 {
            return number_below(nodes, vars, at, u16_within(nodes, at + 4));
        }
        return number_below(nodes, vars, at, u16_within(nodes, at + 6));
    }
    0
}

fn is_connective(code: u8) -> bool
    ensures { result ≡ (leb 19 code && leb code 21) }
{
    (19 <= code) & (code <= 21)
}

fn turned(t: u8, flip: bool) -> u8
    ensures { result ≡ cond flip (cond (ltb t 2) (1 - t) t) t }
{
    if flip { negated(t) } else { t }
}

// Goes on from node to node while the truth is left to one operand: not turns it, and and or leave it to the second where the first does not decide.
#[cycle(comparison_at_condition_number_below_operation_truth_below)]
fn condition(nodes: &[u8], vars: &Variables, start: usize) -> u8
    requires { RecordAt nodes.now start }
    ensures { (n : ℕ) → start ≡ 16 * n → TruthStandsFor result (truth (node_at nodes.now) vars.now n) }
{
    let mut at = start;
    let mut flip = false;
    let mut code = nodes[start + 1];
    while is_connective(code) {
        let mut left = u16_within(nodes, at + 2);
        if code == 19 {
            flip = !flip;
        } else {
            let t = truth_below(nodes, vars, at, left);
            if t != truth_value(nodes[at + 1] == 20) {
                return turned(t, flip);
            }
            left = u16_within(nodes, at + 4);
        }
        let to = 16 * (left as usize);
        if at <= to {
            return truth_value(flip);
        }
        at = to;
        code = nodes[at + 1];
    }
    if code < 16 || 18 < code {
        return truth_value(flip);
    }
    turned(comparison_at(nodes, vars, at), flip)
}

// ---- any node: its record may be cut short by the end, or stand past it

// Operand a of node n; one that is not lower counts as 0. A leaf is read here, without a call.
#[cycle(chosen_compared_computed_decided_number_outcome_operand_number_operand_truth_truth_outcome)]
fn operand_number(nodes: &[u8], vars: &Variables, n: u16, a: u16) -> i64
    ensures { StandsFor result (operand_number (node_at nodes.now) vars.now n a) }
{
    if n <= a {
        return 0;
    }
    let at = 16 * (a as usize);
    if at + 16 <= nodes.len() {
        let code = nodes[at + 1];
        if code == 2 {
            return variable(vars, u16_within(nodes, at + 2));
        }
        if code == 1 {
            return wide(i32_within(nodes, at + 8));
        }
        return operation(nodes, vars, at, code);
    }
    number_outcome(nodes, vars, a)
}

#[cycle(chosen_compared_computed_decided_number_outcome_operand_number_operand_truth_truth_outcome)]
fn operand_truth(nodes: &[u8], vars: &Variables, n: u16, a: u16) -> u8
    ensures { TruthStandsFor result (operand_truth (node_at nodes.now) vars.now n a) }
{
    if n <= a {
        return 0;
    }
    let at = 16 * (a as usize);
    if at + 16 <= nodes.len() {
        return condition(nodes, vars, at);
    }
    truth_outcome(nodes, vars, a)
}

// Operands a and b of node n, left to right: the first fault ends it.
#[cycle(chosen_compared_computed_decided_number_outcome_operand_number_operand_truth_truth_outcome)]
fn computed(nodes: &[u8], vars: &Variables, n: u16, code: u8, a: u16, b: u16) -> i64
    ensures { StandsFor result (compute_operands (node_at nodes.now) vars.now (arithmetic_of code) n a b) }
{
    let x = operand_number(nodes, vars, n, a);
    if HIGHEST < x {
        return x;
    }
    let y = operand_number(nodes, vars, n, b);
    if HIGHEST < y {
        return y;
    }
    compute(code, x, y)
}

#[cycle(chosen_compared_computed_decided_number_outcome_operand_number_operand_truth_truth_outcome)]
fn compared(nodes: &[u8], vars: &Variables, n: u16, code: u8, a: u16, b: u16) -> u8
    ensures { TruthStandsFor result (compare_operands (node_at nodes.now) vars.now (comparison_of code) n a b) }
{
    let x = operand_number(nodes, vars, n, a);
    if HIGHEST < x {
        return truth_fault(x);
    }
    let y = operand_number(nodes, vars, n, b);
    if HIGHEST < y {
        return truth_fault(y);
    }
    truth_value(compare(code, x, y))
}

// The truth of operand t of node n picks operand a or b.
#[cycle(chosen_compared_computed_decided_number_outcome_operand_number_operand_truth_truth_outcome)]
fn chosen(nodes: &[u8], vars: &Variables, n: u16, t: u16, a: u16, b: u16) -> i64
    ensures { StandsFor result (choose (operand_truth (node_at nodes.now) vars.now n t) (operand_number (node_at nodes.now) vars.now n a) (operand_number (node_at nodes.now) vars.now n b)) }
{
    let first = operand_truth(nodes, vars, n, t);
    if 1 < first {
        return number_fault(first);
    }
    operand_number(nodes, vars, n, picked(first == 1, a, b))
}

// Operand a of node n where it is a fault or the truth that decides, else operand b.
#[cycle(chosen_compared_computed_decided_number_outcome_operand_number_operand_truth_truth_outcome)]
fn decided(nodes: &[u8], vars: &Variables, n: u16, a: u16, b: u16, decides: bool) -> u8
    ensures { TruthStandsFor result (decide decides (operand_truth (node_at nodes.now) vars.now n a) (operand_truth (node_at nodes.now) vars.now n b)) }
{
    let t = operand_truth(nodes, vars, n, a);
    if t == truth_value(!decides) {
        operand_truth(nodes, vars, n, b)
    } else {
        t
    }
}

// By the code: 1 a constant, 2 a variable, 3 to 7 two numbers, 8 a choice.
#[cycle(chosen_compared_computed_decided_number_outcome_operand_number_operand_truth_truth_outcome)]
fn number_outcome(nodes: &[u8], vars: &Variables, n: u16) -> i64
    ensures { StandsFor result (number (node_at nodes.now) vars.now n) }
{
    let f = fields_at(nodes, n);
    let code = f.code;
    if 8 < code {
        return 0;
    }
    if code == 8 {
        return chosen(nodes, vars, n, f.a, f.b, f.c);
    }
    if 2 < code {
        return computed(nodes, vars, n, code, f.a, f.b);
    }
    if code == 2 {
        return variable(vars, f.a);
    }
    if code == 1 {
        return wide(i32_at(nodes, 16 * (n as usize) + 8));
    }
    0
}

// By the code: 16 to 18 two numbers compared, 19 not, 20 and, 21 or.
#[cycle(chosen_compared_computed_decided_number_outcome_operand_number_operand_truth_truth_outcome)]
fn truth_outcome(nodes: &[u8], vars: &Variables, n: u16) -> u8
    ensures { TruthStandsFor result (truth (node_at nodes.now) vars.now n) }
{
    let f = fields_at(nodes, n);
    let code = f.code;
    if code < 16 {
        return 0;
    }
    if code < 19 {
        return compared(nodes, vars, n, code, f.a, f.b);
    }
    if code == 19 {
        return negated(operand_truth(nodes, vars, n, f.a));
    }
    if code < 22 {
        return decided(nodes, vars, n, f.a, f.b, code == 21);
    }
    0
}

fn reason(range: bool) -> Reason
    ensures { value_reason_of result ≡ fault_of range }
{
    if range {
        Reason::Range
    } else {
        Reason::Divisor
    }
}

pub fn number_of(nodes: &[u8], vars: &Variables, n: u16) -> Result<i32, Reason>
    ensures { number_of result ≡ number (node_at nodes.now) vars.now n }
{
    let z = number_outcome(nodes, vars, n);
    if HIGHEST < z {
        Err(reason(z <= OUT_OF_RANGE))
    } else {
        Ok(z as i32)
    }
}

pub fn truth_of(nodes: &[u8], vars: &Variables, n: u16) -> Result<bool, Reason>
    ensures { truth_of result ≡ truth (node_at nodes.now) vars.now n }
{
    let t = truth_outcome(nodes, vars, n);
    match t {
        0 => Ok(false),
        1 => Ok(true),
        _ => Err(reason(t == 2)),
    }
}
