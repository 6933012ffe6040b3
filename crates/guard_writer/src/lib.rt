// The writer of guards: the line of a list of nodes that is one tree, written into a lent buffer.
#![tactic(auto)]

ghost use Rattle.std.specs.Prelude.{◌≡◌};
ghost use Rattle.guards.specs.Calls.{write_guard};
ghost use Rattle.guard_writer.specs.Answers.{written_of};

pub mod lists;
pub mod measures;
pub mod operators;
pub mod trees;

use lists::list_refusal;
use measures::tree_bytes;
use records::refusals::Refusal;
use trees::put_tree;

// Tests the list anew, for its refusal, and counts the line, over a buffer of one byte.
fn write_counted(nodes: &[u8], text: &mut [u8]) -> Result<usize, Refusal>
    ensures { written_of result text.new ≡ write_guard nodes.now text.old }
{
    let root = list_refusal(nodes)?;
    let mut counted = [0u8; 1];
    let size = put_tree(nodes, root, &mut counted, 0);
    if text.len() < size {
        return Err(Refusal::ShortSpace);
    }
    Ok(put_tree(nodes, root, text, 0))
}

// The length of the line. At once where the list is one tree and its line has room.
pub fn write_guard(nodes: &[u8], text: &mut [u8]) -> Result<usize, Refusal>
    ensures { written_of result text.new ≡ write_guard nodes.now text.old }
{
    if let Some(bytes) = tree_bytes(nodes) {
        if bytes <= text.len() {
            return Ok(put_tree(nodes, (nodes.len() / 16 - 1) as u16, text, 0));
        }
    }
    write_counted(nodes, text)
}
