// The rules of the grammar: a function for each.
ghost use Rattle.std.specs.Prelude.{◌≡◌, Some, ◌-◌, ◌≤◌, ◌<◌, length, drop};
ghost use Rattle.guards.specs.Grammar.{choice_at, binary_at, operand_at};
ghost use Rattle.guard_reader.specs.Parts.{parsed_of, Reads, Placed, leaf_at, operand_depth, binary_depth, choice_depth};

use super::lexemes::{number_at, past, sign_at, skip};
use super::trees::{Part, chosen, constant, joined, negated, negative, variable};
use records::byte_at;

// What a rule came to as one number, 0 outside the grammar. It stays in a register, where an Option would go through memory (docs/DECISIONS.md, "Guards
// typed as a line").
fn packed(p: Part) -> u32
    requires { (0 < p.next) × (p.next ≤ 256) × (p.size ≤ 256) }
    ensures { parsed_of result ≡ Some p }
{
    (p.next as u32) + 512 * p.size + 262144 * u32::from(p.fits) + 524288 * u32::from(p.truth)
}

pub fn unpacked(r: u32) -> Option<Part>
    ensures { result ≡ parsed_of r }
{
    if r == 0 {
        return None;
    }
    Some(Part {
        next: (r % 512) as usize,
        size: r / 512 % 512,
        fits: r / 262144 % 2 == 1,
        truth: r / 524288 % 2 == 1,
    })
}

// A variable or a constant, at a place that has no space.
fn leaf(text: &[u8], at: usize, nodes: &mut [u8], size: u32) -> u32
    requires { Placed text.now at size }
    ensures { Reads text.now at size nodes.old nodes.new 0 (λ d. leaf_at (drop at text.now)) result }
{
    let b = byte_at(text, at);
    if b == b'v' {
        let Some((n, next)) = number_at(text, at + 1, 63) else {
            return 0;
        };
        return packed(variable(nodes, size, n, next));
    }
    if b == b'-' {
        let Some((n, next)) = number_at(text, at + 1, 2147483648) else {
            return 0;
        };
        return packed(constant(nodes, size, negative(n), next));
    }
    let Some((n, next)) = number_at(text, at, 2147483647) else {
        return 0;
    };
    packed(constant(nodes, size, n, next))
}

#[cycle(rules)]
fn operand(text: &[u8], at: usize, nodes: &mut [u8], size: u32) -> u32
    requires { Placed text.now at size }
    ensures { Reads text.now at size nodes.old nodes.new (operand_depth (length text.now - at)) (λ d. operand_at d (drop at text.now)) result }
{
    let i = skip(text, at);
    let b = byte_at(text, i);
    if b == b'(' {
        let Some(t) = unpacked(choice(&*text, i + 1, nodes, size)) else {
            return 0;
        };
        let Some(next) = past(text, t.next, b')') else {
            return 0;
        };
        return packed(Part { next, ..t });
    }
    if b == b'!' {
        let Some(t) = unpacked(operand(&*text, i + 1, nodes, size)) else {
            return 0;
        };
        return packed(negated(nodes, t));
    }
    leaf(&*text, i, nodes, size)
}

// Operators of levels up to k with their operands.
#[cycle(rules)]
fn binary(text: &[u8], at: usize, k: u8, nodes: &mut [u8], size: u32) -> u32
    requires { Placed text.now at size × (k ≤ 7) }
    ensures { Reads text.now at size nodes.old nodes.new (binary_depth (length text.now - at)) (λ d. binary_at d k (drop at text.now)) result }
{
    let Some(first) = unpacked(operand(&*text, at, nodes, size)) else {
        return 0;
    };
    let mut left = first;
    loop {
        let i = skip(text, left.next);
        let Some(s) = sign_at(text, i).filter(|s| s.level <= k) else {
            return packed(left);
        };
        let Some(right) = unpacked(binary(&*text, s.next, s.level - 1, nodes, left.size)) else {
            return 0;
        };
        left = joined(nodes, s.code, left, right);
    }
}

#[cycle(rules)]
pub fn choice(text: &[u8], at: usize, nodes: &mut [u8], size: u32) -> u32
    requires { Placed text.now at size }
    ensures { Reads text.now at size nodes.old nodes.new (choice_depth (length text.now - at)) (λ d. choice_at d (drop at text.now)) result }
{
    let Some(t) = unpacked(binary(&*text, at, 6, nodes, size)) else {
        return 0;
    };
    let Some(i) = past(text, t.next, b'?') else {
        return packed(t);
    };
    let Some(a) = unpacked(choice(&*text, i, nodes, t.size)) else {
        return 0;
    };
    let Some(j) = past(text, a.next, b':') else {
        return 0;
    };
    let Some(b) = unpacked(choice(&*text, j, nodes, a.size)) else {
        return 0;
    };
    packed(chosen(nodes, t, a, b))
}
