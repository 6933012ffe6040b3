// Operators by the codes of their records.
ghost use Rattle.std.specs.Prelude.{◌≡◌};
ghost use Rattle.guards.specs.Trees.{level as levelOf};
ghost use Rattle.guards.specs.Lists.{tree_of};
ghost use Rattle.expressions.specs.Nodes.{node_at};
ghost use Rattle.guard_writer.specs.Codes.{code_level, first_byte, second_byte};

use records::byte_at;

// How tightly an operator binds: 0 for what has none. Here and below each code has an arm of its own, so that they are looked up in a table of answers; codes
// that share an arm are told apart by jumps, which the processor does not foresee.
#[tactic(auto, unfolding(prelude::specs::Lists::case_of))]
pub fn level(code: u8) -> u8
    ensures { result ≡ code_level code }
{
    match code {
        3 => 3,
        4 => 3,
        5 => 2,
        6 => 2,
        7 => 2,
        8 => 7,
        16 => 4,
        17 => 4,
        18 => 4,
        19 => 1,
        20 => 5,
        21 => 6,
        _ => 0,
    }
}

pub fn level_at(nodes: &[u8], n: u16) -> u8
    ensures { result ≡ levelOf (tree_of (node_at nodes.now) n) }
{
    level(byte_at(nodes, 16 * (n as usize) + 1))
}

// The sign of an operator that stands between its operands: its first byte, and its second, if it has one.
#[tactic(auto, unfolding(prelude::specs::Lists::case_of))]
pub fn first_byte(code: u8) -> u8
    ensures { result ≡ first_byte code }
{
    match code {
        3 => b'+',
        4 => b'-',
        5 => b'*',
        6 => b'/',
        7 => b'%',
        16 => b'=',
        17 => b'<',
        18 => b'<',
        20 => b'&',
        _ => b'|',
    }
}

#[tactic(auto, unfolding(prelude::specs::Lists::case_of))]
pub fn second_byte(code: u8) -> Option<u8>
    ensures { result ≡ second_byte code }
{
    match code {
        3 => None,
        4 => None,
        5 => None,
        6 => None,
        7 => None,
        16 => Some(b'='),
        17 => None,
        18 => Some(b'='),
        20 => Some(b'&'),
        _ => Some(b'|'),
    }
}
