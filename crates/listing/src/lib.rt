// The lines of a listing: of each record of a set or table its words, written at the start of a lent buffer.
#![tactic(auto)]

ghost use Rattle.std.specs.Prelude.{◌≡◌, [], ◌∷◌, ◌++◌, ◌*◌, ◌/◌, ◌≤◌, ◌<◌, length};
ghost use Rattle.records.specs.Bytes.{byte};
ghost use Rattle.records.specs.Wrote.{Begins};
ghost use Rattle.expressions.specs.Nodes.{read_node, node_at};
ghost use Rattle.model.specs.Replay.{feed};
ghost use Rattle.listing_parts.specs.Parts.{WroteNear, node_text};
ghost use Rattle.listing.specs.Guards.{line_room, Short};
ghost use Rattle.listing.specs.Listing.{record_text, line_text, number_of, listed, guard_listed, HasNodes};

pub mod guarded;
pub mod sets;
pub mod tables;

use guarded::{put_alone, put_beside};
use listing_parts::fields::{put_node, put_variable};
use listing_parts::texts::put_word;
use records::byte_at;
use records::sizes::NODES;
use sets::{put_action, put_chart, put_state, put_transition};
use tables::{
    put_automaton, put_clock, put_edge, put_literal, put_location, put_reset, put_update,
};

// By the record's kind.
#[tactic(auto, unfolding(prelude::specs::Lists::case_of))]
fn put_fields(out: &mut [u8], i: u32, r: &[u8]) -> usize
    ensures { WroteNear 256 out.old 0 (record_text i r.now) out.new result }
{
    match byte_at(r, 0) {
        1 => put_chart(out, i, r),
        2 => put_state(out, i, r),
        3 => put_transition(out, i, r),
        4 | 38 => put_variable(out, i, r),
        5 | 39 => put_node(out, i, r),
        6 => put_action(out, i, r),
        33 => put_automaton(out, i, r),
        34 => put_location(out, i, r),
        35 => put_edge(out, i, r),
        36 => put_literal(out, i, r),
        37 => put_clock(out, i, r),
        40 => put_update(out, i, r),
        _ => put_reset(out, i, r),
    }
}

// Room for any line: the fields of its record, a guard of all nodes, its parentheses and the line's end.
pub const LINE_ROOM: usize = 256 + 21 * NODES + 4;

// The line of a record, the i-th of its kind, at the start; answers its length. The nodes are the file's.
fn put_line(out: &mut [u8], nodes: &[u8], i: u32, r: &[u8]) -> usize
    requires { Short (node_at nodes.now) }
    ensures { Begins out.old (line_text (node_at nodes.now) i r.now) out.new result × (result ≤ line_room) }
{
    let guard = put_fields(out, i, r);
    let end = put_beside(out, guard, nodes, r);
    put_word(out, end, b"\n")
}

// The line of a node by itself.
pub fn node_into(out: &mut [u8], i: u32, r: &[u8]) -> usize
    ensures { Begins out.old (node_text i (read_node r.now) ++ (feed ∷ [])) out.new result × (result ≤ 276) }
{
    let end = put_node(out, i, r);
    put_word(out, end, b"\n")
}

// The line of record n of a file, before which there are i of its kind.
pub fn line_into(out: &mut [u8], s: &[u8], nodes: &[u8], n: usize, i: u32) -> usize
    requires { HasNodes s.now nodes.now × (n < length s.now / 16) × (i ≡ number_of s.now (byte s.now (16 * n)) n) }
    ensures { Begins out.old (listed s.now n) out.new result × (result ≤ line_room) }
{
    let at = 16 * n;
    let end = at + 16;
    put_line(out, nodes, i, &s[at..end])
}

// The line of its guard, where it has one.
pub fn guard_into(out: &mut [u8], s: &[u8], nodes: &[u8], n: usize, i: u32) -> usize
    requires { HasNodes s.now nodes.now × (n < length s.now / 16) × (i ≡ number_of s.now (byte s.now (16 * n)) n) }
    ensures { Begins out.old (guard_listed s.now n) out.new result × (result ≤ line_room) }
{
    let at = 16 * n;
    let end = at + 16;
    put_alone(out, nodes, i, &s[at..end])
}
