// Texts of numbers, written into a lent buffer. Bytes past its end are counted and not written, as in `lines`.
ghost use Rattle.std.specs.Prelude.{◌++◌, ◌+◌, ◌≤◌, ◌<◌, ◌^◌, length};
ghost use Rattle.model.specs.Replay.{decimal};
ghost use Rattle.records.specs.Wrote.{Wrote, Begins};
ghost use Rattle.messages.specs.Texts.{three_text, row_text, set_text, places_text, table_text, accepted_word, written_word, bytes_word};

use lines::{put_decimal, put_text};

// A number, then a word.
pub fn put_counted(out: &mut [u8], at: usize, n: u32, word: &[u8]) -> usize
    requires { at + length word.now < 2 ^ 61 }
    ensures { Wrote out.old at (decimal n ++ word.now) out.new result × (result ≤ at + 10 + length word.now) }
{
    let next = put_decimal(out, at, n);
    put_text(out, next, word)
}

// Three of them.
fn put_three(
    out: &mut [u8],
    at: usize,
    a: u32,
    u: &[u8],
    b: u32,
    v: &[u8],
    c: u32,
    w: &[u8],
) -> usize
    requires { (at < 2 ^ 60) × (length u.now ≤ 16) × (length v.now ≤ 16) × (length w.now ≤ 16) }
    ensures { Wrote out.old at (three_text a u.now b v.now c w.now) out.new result × (result ≤ at + 78) }
{
    let b_at = put_counted(out, at, a, u);
    let c_at = put_counted(out, b_at, b, v);
    put_counted(out, c_at, c, w)
}

// The line of a row at the start; answers its length.
pub fn row_into(out: &mut [u8], cycle: u32, chart: u32, transition: u32) -> usize
    ensures { Begins out.old (row_text cycle chart transition) out.new result × (result ≤ 78) }
{
    put_three(out, 0, cycle, b" ", chart, b" ", transition, b"\n")
}

// How many records a set has of each kind, to the line's end.
fn put_set(out: &mut [u8], at: usize, shape: chart_records::Shape) -> usize
    requires { at < 2 ^ 59 }
    ensures { Wrote out.old at (set_text shape) out.new result × (result ≤ at + 156) }
{
    let next = put_three(
        out,
        at,
        shape.charts as u32,
        b" charts, ",
        shape.states as u32,
        b" states, ",
        shape.transitions as u32,
        b" transitions, ",
    );
    put_three(
        out,
        next,
        shape.variables as u32,
        b" variables, ",
        shape.nodes as u32,
        b" nodes, ",
        shape.actions as u32,
        b" actions\n",
    )
}

// Automata, locations, edges, literals, clocks, variables.
fn put_places(out: &mut [u8], at: usize, shape: automata_records::Shape) -> usize
    requires { at < 2 ^ 59 }
    ensures { Wrote out.old at (places_text shape) out.new result × (result ≤ at + 156) }
{
    let next = put_three(
        out,
        at,
        shape.automata as u32,
        b" automata, ",
        shape.locations as u32,
        b" locations, ",
        shape.edges as u32,
        b" edges, ",
    );
    put_three(
        out,
        next,
        shape.literals as u32,
        b" literals, ",
        shape.clocks as u32,
        b" clocks, ",
        shape.variables as u32,
        b" variables, ",
    )
}

// How many records a table has of each kind, to the line's end.
fn put_table(out: &mut [u8], at: usize, shape: automata_records::Shape) -> usize
    requires { at < 2 ^ 58 }
    ensures { Wrote out.old at (table_text shape) out.new result × (result ≤ at + 234) }
{
    let next = put_places(out, at, shape);
    put_three(
        out,
        next,
        shape.nodes as u32,
        b" nodes, ",
        shape.updates as u32,
        b" updates, ",
        shape.resets as u32,
        b" resets\n",
    )
}

// The line of an accepted set at the start; answers its length.
pub fn set_into(out: &mut [u8], shape: chart_records::Shape) -> usize
    ensures { Begins out.old (accepted_word ++ set_text shape) out.new result × (result ≤ 300) }
{
    let next = put_text(out, 0, b"accepted: ");
    put_set(out, next, shape)
}

// The line of an accepted table at the start; answers its length.
pub fn table_into(out: &mut [u8], shape: automata_records::Shape) -> usize
    ensures { Begins out.old (accepted_word ++ table_text shape) out.new result × (result ≤ 300) }
{
    let next = put_text(out, 0, b"accepted: ");
    put_table(out, next, shape)
}

// The line of a twin of so many bytes at the start; answers its length.
pub fn written_into(out: &mut [u8], size: u32, shape: automata_records::Shape) -> usize
    ensures { Begins out.old (written_word ++ (decimal size ++ bytes_word) ++ table_text shape) out.new result × (result ≤ 300) }
{
    let size_at = put_text(out, 0, b"written: ");
    let next = put_counted(out, size_at, size, b" bytes, ");
    put_table(out, next, shape)
}
