// The reader of guards typed as a line: by the rules of the grammar, from left to right, each node written as soon as its operands are.
#![tactic(auto)]

ghost use Rattle.std.specs.Prelude.{◌≡◌, ◌*◌, ◌≤◌, length};
ghost use Rattle.guards.specs.Calls.{read_guard};
ghost use Rattle.guard_reader.specs.Answer.{IsLine, guard_of};

pub mod lexemes;
pub mod rules;
pub mod trees;

use lexemes::skip;
use records::refusals::Refusal;
use rules::{choice, unpacked};
use trees::Part;

// "a line has 1 to 256 ASCII bytes", and no more nodes than bytes, of 16 bytes each.
const LONGEST_LINE: usize = 256;

const LINE_NODES: usize = 4096;

const SHORT_LINE: usize = 32;

const SHORT_LINE_NODES: usize = 512;

// The tree of a whole line: nothing but spaces may stand behind it.
fn line(text: &[u8], nodes: &mut [u8]) -> Option<Part>
    ensures { IsLine text.now nodes.old nodes.new result }
{
    let n = text.len();
    if (n == 0) | (LONGEST_LINE < n) {
        return None;
    }
    let t = unpacked(choice(text, 0, nodes, 0))?;
    if skip(text, t.next) < n {
        return None;
    }
    Some(t)
}

// The number of nodes. They go into a place of their own first, so that what is lent keeps its contents where the line is refused.
fn read_by(text: &[u8], own: &mut [u8], nodes: &mut [u8]) -> Result<u16, Refusal>
    requires { length text.now ≤ 256 → 16 * length text.now ≤ length own.old }
    ensures { guard_of result nodes.new ≡ read_guard text.now nodes.old }
{
    let t = line(text, own).ok_or(Refusal::BrokenLine)?;
    if !(t.fits & t.truth) {
        return Err(Refusal::WrongSort);
    }
    let size = t.size as usize;
    if nodes.len() / 16 < size {
        return Err(Refusal::ShortSpace);
    }
    nodes[..16 * size].copy_from_slice(&own[..16 * size]);
    Ok(t.size as u16)
}

// A line has no more nodes than bytes: for a short one little is cleared.
pub fn read_guard(text: &[u8], nodes: &mut [u8]) -> Result<u16, Refusal>
    ensures { guard_of result nodes.new ≡ read_guard text.now nodes.old }
{
    if text.len() <= SHORT_LINE {
        let mut own = [0u8; SHORT_LINE_NODES];
        return read_by(text, &mut own, nodes);
    }
    let mut own = [0u8; LINE_NODES];
    read_by(text, &mut own, nodes)
}
