// Guards typed as a line.
ghost use Rattle.std.specs.Prelude.{◌≡◌};
ghost use Rattle.model.specs.Calls.{numbered};
ghost use Rattle.answers.specs.Answers.{count_code};
ghost use Rattle.guards.specs.Calls.{read_guard, write_guard};

use crate::sizes::size_code;
use answers::refused_code;

// The number of the line's nodes, or minus the refusal's number.
#[unsafe(no_mangle)]
pub extern "C" fn guard_read(text: &[u8], nodes: &mut [u8]) -> i32
    ensures value { result ≡ numbered count_code (read_guard text.now nodes.old).answer }
    ensures nodes_after { nodes.new ≡ (read_guard text.now nodes.old).lent }
{
    guard_reader::read_guard(text, nodes).map_or_else(refused_code, i32::from)
}

// The length of the line, or minus the refusal's number.
#[unsafe(no_mangle)]
pub extern "C" fn guard_write(nodes: &[u8], text: &mut [u8]) -> i32
    ensures value { result ≡ numbered count_code (write_guard nodes.now text.old).answer }
    ensures text_after { text.new ≡ (write_guard nodes.now text.old).lent }
{
    size_code(guard_writer::write_guard(nodes, text))
}
