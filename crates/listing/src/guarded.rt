// Guards as people type them: the line of a guard beside its node, and alone.
ghost use Rattle.std.specs.Prelude.{◌≡◌, ◌+◌, ◌≤◌, ◌<◌, ◌^◌};
ghost use Rattle.std.proofs.Math.Option.{some};
ghost use Rattle.records.specs.Wrote.{Begins};
ghost use Rattle.expressions.specs.Nodes.{node_at};
ghost use Rattle.chart_records.specs.Parts.{guard_for};
ghost use Rattle.listing_parts.specs.Parts.{WroteNear};
ghost use Rattle.listing.specs.Guards.{guard_of, guarded_text, longest_guard, line_room, beside_text, alone_text, Short};
ghost use Rattle.listing.specs.Listing.{guard_text};

use chart_records::fields::{guard_by, guard_by_plus_one};
use guard_writer::trees::put_tree;
use listing_parts::texts::{put_named, put_word};
use records::{byte_at, u16_at};

#[tactic(auto, unfolding(prelude::specs::Lists::case_of))]
fn guard_of(r: &[u8]) -> Option<u16>
    ensures { guard_for result ≡ guard_of r.now }
{
    match byte_at(r, 0) {
        3 => guard_by(u16_at(r, 12)),
        6 => guard_by_plus_one(u16_at(r, 8)),
        36 => guard_by(u16_at(r, 8)),
        40 => guard_by_plus_one(u16_at(r, 8)),
        _ => None,
    }
}

// The guard of a record, in parentheses from a place on.
pub fn put_beside(out: &mut [u8], at: usize, nodes: &[u8], r: &[u8]) -> usize
    requires { (at < 2 ^ 18) × Short (node_at nodes.now) }
    ensures { WroteNear (longest_guard + 3) out.old at (beside_text (node_at nodes.now) (guard_of r.now)) out.new result }
{
    match guard_of(r) {
        None => at,
        Some(g) => {
            let line = put_word(out, at, b" (");
            let behind = put_tree(nodes, g, out, line);
            put_word(out, behind, b")")
        }
    }
}

// What a guard guards, the i-th of its kind.
fn put_guarded(out: &mut [u8], i: u32, r: &[u8]) -> usize
    ensures { WroteNear 32 out.old 0 (guarded_text i r.now) out.new result }
{
    match byte_at(r, 0) {
        3 => put_named(out, 0, b"transition ", i),
        6 => put_named(out, 0, b"action ", i),
        36 => put_named(out, 0, b"literal ", i),
        _ => put_named(out, 0, b"update ", i),
    }
}

fn put_guard_line(out: &mut [u8], nodes: &[u8], i: u32, r: &[u8], g: u16) -> usize
    requires { Short (node_at nodes.now) }
    ensures { WroteNear line_room out.old 0 (alone_text (node_at nodes.now) (guarded_text i r.now) (some g)) out.new result }
{
    let node = put_guarded(out, i, r);
    let colon = put_named(out, node, b": guard node ", g as u32);
    let line = put_word(out, colon, b": ");
    let end = put_tree(nodes, g, out, line);
    put_word(out, end, b"\n")
}

// The line of a record's guard at the start, where it has one; answers its length.
pub fn put_alone(out: &mut [u8], nodes: &[u8], i: u32, r: &[u8]) -> usize
    requires { Short (node_at nodes.now) }
    ensures { Begins out.old (guard_text (node_at nodes.now) i r.now) out.new result × (result ≤ line_room) }
{
    match guard_of(r) {
        None => 0,
        Some(g) => put_guard_line(out, nodes, i, r, g),
    }
}
