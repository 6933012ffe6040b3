// The index that turns read, made once for a table: a location's edges, an edge's literals, and its updates and resets, are found without a search.
ghost use Rattle.std.specs.Prelude.{◌≡◌, ◌+◌, ◌≤◌, ◌<◌, ◌^◌};
ghost use Rattle.automata_records.specs.Places.{first_reset};
ghost use Rattle.automata_records.specs.Accepted.{Accepted, InFile};
ghost use Rattle.automata_steps.specs.Index.{owner_in, HasIndex, KeepsUnchained, RoomFor, Blank, Linkable, Links};
ghost use Rattle.automata_steps.specs.Prepared.{Prepared};

use super::fields::{first_edge, first_literal, first_reset, first_update, two_of};
use automata_records::Shape;
use records::sizes::{
    EDGE_OWNERS, EFFECT_KEYS, LITERAL_KEYS, LOCATION_OWNERS, NO_RECORD, TABLE_KEYS, TABLE_RECORDS,
    TableHeads,
};

// Where a kind stands: its records from `start` up to `end`, and its owners' keys, so many from `base` on.
#[derive(Clone, Copy)]
pub struct Span {
    pub start: u16,
    pub end: u16,
    pub base: u16,
    pub owners: u16,
}

// The owner of record n.
fn owner_of(s: &[u8], n: u16) -> u16
    requires { InFile s.now n }
    ensures { result ≡ owner_in s.now n }
{
    two_of(s, n, 2)
}

// From the last record down, so that each finds the one behind it.
fn link(s: &[u8], span: Span, first: &mut TableHeads, next: &mut [u16])
    requires { Linkable s.now span first.old next.old }
    ensures { Links s.now span first.old next.old first.new next.new }
{
    for n in (span.start..span.end).rev() {
        let key = (span.base + owner_of(s, n)) as usize;
        let i = n as usize;
        next[i] = first[key];
        first[key] = n;
    }
}

// Of each key its first record, and of each record the next of its key; 65535 is none, as two bytes a place are cleared in each call (docs/SPEED.md, "Fixed
// tables"). The records are a slice, as the index has two lengths. What is lent names none.
pub fn index_of(s: &[u8], shape: Shape, first: &mut TableHeads, next: &mut [u16])
    requires accepted { Accepted s.now shape }
    requires blank { Blank first.old }
    requires room_for { RoomFor shape next.old }
    ensures has_index { HasIndex s.now shape first.new next.new }
    ensures keeps_unchained { KeepsUnchained shape next.old next.new }
{
    let edge = first_edge(shape);
    let literal = first_literal(shape);
    let update = first_update(shape);
    let reset = first_reset(shape);
    link(
        s,
        Span {
            start: edge,
            end: literal,
            base: 0,
            owners: LOCATION_OWNERS,
        },
        first,
        next,
    );
    link(
        s,
        Span {
            start: literal,
            end: literal + shape.literals,
            base: LITERAL_KEYS,
            owners: EDGE_OWNERS,
        },
        first,
        next,
    );
    link(
        s,
        Span {
            start: update,
            end: reset + shape.resets,
            base: EFFECT_KEYS,
            owners: EDGE_OWNERS,
        },
        first,
        next,
    );
}

// What is read by a table's index, made for this once, with so many places for its links. They are filled with `NO_RECORD`, whose two bytes differ, so that it is
// stored by vectors and not by one instruction that is repeated for each byte.
fn with_links<T, F: FnOnce(&TableHeads, &[u16]) -> T, const N: usize>(
    s: &[u8],
    shape: Shape,
    read: F,
) -> T
    requires accepted { Accepted s.now shape }
    requires room { first_reset shape + shape.resets ≤ N }
    requires few { N < 2 ^ 16 }
    requires may_read { (first : _) (next : _) → Prepared s.now shape first.now next.now → F.pre read first next }
    ensures { (first : _) × (next : _) × Prepared s.now shape first.now next.now × F.post read first next result }
{
    let mut first = [65535u16; TABLE_KEYS];
    let mut next = [NO_RECORD; N];
    index_of(s, shape, &mut first, &mut next);
    read(&first, &next)
}

// It is short for a short file. Each length has a function of its own, since one pays at its entry for all of its locals.
pub fn with_index<T, F: FnOnce(&TableHeads, &[u16]) -> T>(s: &[u8], shape: Shape, read: F) -> T
    requires accepted { Accepted s.now shape }
    requires may_read { (first : _) (next : _) → Prepared s.now shape first.now next.now → F.pre read first next }
    ensures { (first : _) × (next : _) × Prepared s.now shape first.now next.now × F.post read first next result }
{
    if s.len() <= 16384 {
        with_links::<T, F, 1024>(s, shape, read)
    } else {
        with_links::<T, F, TABLE_RECORDS>(s, shape, read)
    }
}
