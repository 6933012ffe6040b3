// Nodes written one behind the other, and what is told of the tree whose root is the last.
ghost use Rattle.std.specs.Prelude.{◌≡◌, ◌∷◌, ◌+◌, ◌*◌, ◌≤◌, ◌<◌, ◌^◌, pos, neg_ℤ, length};
ghost use Rattle.guards.specs.Trees.{pair_fits};
ghost use Rattle.std.proofs.lemmas.List.Edits.{sets};
ghost use Rattle.records.specs.Bytes.{bytes2, bytes4, unsigned};
ghost use Rattle.guard_reader.specs.Parts.{node_bits, LeafIs, NegationIs, JoinIs, ChoiceIs};

use records::{put_byte, put_u32};

// A tree that was read: the place behind it, the number of nodes written with it, whether all operands have the sort that their operator takes, and whether it
// is a truth.
#[derive(Clone, Copy)]
pub struct Part {
    pub next: usize,
    pub size: u32,
    pub fits: bool,
    pub truth: bool,
}

// Two bytes and four that have room: a record is written with one test (docs/SPEED.md, "Guards typed as a line"), which is the caller's.
fn put_two(s: &mut [u8], at: usize, v: u32)
    requires { at + 1 < length s.old }
    ensures { s.new ≡ sets s.old at (bytes2 v) }
{
    s[at] = (v % 256) as u8;
    s[at + 1] = (v / 256 % 256) as u8;
}

fn put_four(s: &mut [u8], at: usize, v: u32)
    requires { at + 3 < length s.old }
    ensures { s.new ≡ sets s.old at (bytes4 v) }
{
    put_two(s, at, v % 65536);
    put_two(s, at + 2, v / 65536);
}

// Two bytes, as far as there is room.
fn put_some(s: &mut [u8], at: usize, v: u32)
    requires { at < 2 ^ 62 }
    ensures { s.new ≡ sets s.old at (bytes2 v) }
{
    put_byte(s, at, (v % 256) as u8);
    put_byte(s, at + 1, (v / 256 % 256) as u8);
}

// The record of node n, which has room; a constant is given by its bits.
fn put_whole(nodes: &mut [u8], at: usize, code: u8, a: u32, b: u32, c: u32, bits: u32)
    requires { (at + 15 < length nodes.old) × (at < 2 ^ 32 * 16) }
    ensures { nodes.new ≡ sets nodes.old at (5 ∷ node_bits code a b c bits) }
{
    nodes[at] = 5;
    nodes[at + 1] = code;
    put_two(nodes, at + 2, a);
    put_two(nodes, at + 4, b);
    put_two(nodes, at + 6, c);
    put_four(nodes, at + 8, bits);
    put_four(nodes, at + 12, 0);
}

// The record of node n. Bytes past the end are not written.
fn put_node(nodes: &mut [u8], n: u32, code: u8, a: u32, b: u32, c: u32, bits: u32)
    ensures { nodes.new ≡ sets nodes.old (16 * n) (5 ∷ node_bits code a b c bits) }
{
    let at = 16 * (n as usize);
    if at + 15 < nodes.len() {
        return put_whole(nodes, at, code, a, b, c, bits);
    }
    put_byte(nodes, at, 5);
    put_byte(nodes, at + 1, code);
    put_some(nodes, at + 2, a);
    put_some(nodes, at + 4, b);
    put_some(nodes, at + 6, c);
    put_u32(nodes, at + 8, bits);
    put_u32(nodes, at + 12, 0);
}

// The bits of minus n.
pub fn negative(n: u32) -> u32
    requires { n ≤ 2 ^ 31 }
    ensures { result ≡ unsigned (2 ^ 31) (neg_ℤ (pos n)) }
{
    if n == 0 { 0 } else { 4294967295 - (n - 1) }
}

pub fn constant(nodes: &mut [u8], size: u32, bits: u32, next: usize) -> Part
    requires { size ≤ 256 }
    ensures { LeafIs nodes.old size (node_bits 1 0 0 0 bits) next nodes.new result }
{
    put_node(nodes, size, 1, 0, 0, 0, bits);
    Part {
        next,
        size: size + 1,
        fits: true,
        truth: false,
    }
}

pub fn variable(nodes: &mut [u8], size: u32, v: u32, next: usize) -> Part
    requires { size ≤ 256 }
    ensures { LeafIs nodes.old size (node_bits 2 v 0 0 0) next nodes.new result }
{
    put_node(nodes, size, 2, v, 0, 0, 0);
    Part {
        next,
        size: size + 1,
        fits: true,
        truth: false,
    }
}

pub fn negated(nodes: &mut [u8], t: Part) -> Part
    requires { (0 < t.size) × (t.size ≤ 256) }
    ensures { NegationIs nodes.old t nodes.new result }
{
    put_node(nodes, t.size, 19, t.size - 1, 0, 0, 0);
    Part {
        next: t.next,
        size: t.size + 1,
        fits: t.fits & t.truth,
        truth: true,
    }
}

fn pair_fits(truths: bool, x: bool, y: bool) -> bool
    ensures { result ≡ pair_fits truths x y }
{
    if truths { x & y } else { !x & !y }
}

// The operator of a code between two trees: of the codes 16 and above it gives a truth, of 20 and above it takes truths.
pub fn joined(nodes: &mut [u8], code: u8, a: Part, b: Part) -> Part
    requires { (0 < a.size) × (0 < b.size) × (b.size ≤ 256) }
    ensures { JoinIs nodes.old code a b nodes.new result }
{
    put_node(nodes, b.size, code, a.size - 1, b.size - 1, 0, 0);
    Part {
        next: b.next,
        size: b.size + 1,
        fits: a.fits & b.fits & pair_fits(20 <= code, a.truth, b.truth),
        truth: 16 <= code,
    }
}

pub fn chosen(nodes: &mut [u8], t: Part, a: Part, b: Part) -> Part
    requires { (0 < t.size) × (0 < a.size) × (0 < b.size) × (b.size ≤ 256) }
    ensures { ChoiceIs nodes.old t a b nodes.new result }
{
    put_node(nodes, b.size, 8, t.size - 1, a.size - 1, b.size - 1, 0);
    Part {
        next: b.next,
        size: b.size + 1,
        fits: t.fits & a.fits & b.fits & t.truth & pair_fits(false, a.truth, b.truth),
        truth: false,
    }
}
