// Guards as people type them. Of a line it prints the nodes, in the reader's numbering; after --of, the line of each guard of a file that is accepted, in file
// order. A refusal's number and meaning go to standard error, and nothing is printed.
#![tactic(auto)]

ghost use Rattle.std.specs.Prelude.{◌+◌, ◌*◌, ◌≤◌, length};

use file_lines::{Wanted, show_file};
use guard_reader::read_guard;
use listing::node_into;
use messages::host::Host;
use messages::input::{NAME_ROOM, argument, argument_count, argument_or_empty};
use messages::words::{print, tell_refusal};

// Whether node k went to standard output.
fn print_node(rt: &impl Host, nodes: &[u8], k: u16) -> bool
    requires { 16 * k + 16 ≤ length nodes.now }
{
    let mut text = [0u8; NAME_ROOM];
    let at = 16 * (k as usize);
    let end = at + 16;
    let size = node_into(&mut text, k as u32, &nodes[at..end]);
    print(rt, &text[..size])
}

fn print_nodes(rt: &impl Host, nodes: &[u8], count: u16)
    requires { 16 * count ≤ length nodes.now }
{
    for k in 0..count {
        if !print_node(rt, nodes, k) {
            return;
        }
    }
}

// A line has no more nodes than bytes, so there is room for the nodes of any.
fn read_line(rt: &impl Host, text: &[u8]) {
    let mut nodes = [0u8; NAME_ROOM];
    match read_guard(text, &mut nodes) {
        Err(w) => tell_refusal(rt, w),
        Ok(count) => print_nodes(rt, &nodes, count),
    }
}

// One that does not fit the buffer counts as empty, which is refused as one that is too long is.
fn read_argument(rt: &impl Host) {
    let mut text = [0u8; NAME_ROOM];
    let size = argument_or_empty(rt, 1, &mut text);
    read_line(rt, &text[..size]);
}

fn show_named(rt: &impl Host) {
    let mut name = [0u8; NAME_ROOM];
    let Some(size) = argument(rt, 2, &mut name) else {
        return
    };
    show_file(rt, Wanted::Guards, &name[..size]);
}

fn is_of(word: &[u8]) -> bool {
    word == b"--of".as_slice()
}

// Whether the first argument is --of.
fn asks_file(rt: &impl Host) -> bool {
    let mut word = [0u8; NAME_ROOM];
    let size = argument_or_empty(rt, 1, &mut word);
    is_of(&word[..size])
}

fn main(rt: HostRuntime) {
    let count = argument_count(&rt, 4);
    if (count == 3) & asks_file(&rt) {
        show_named(&rt);
    } else if count == 2 {
        read_argument(&rt);
    } else {
        rt.tell(
            b"usage: guard LINE\n       guard --of FILE\nreads a guard typed as a line, and prints its nodes; or prints the line of each guard of a chart set or an automata table that is accepted\n",
        );
    }
}
