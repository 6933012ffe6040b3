// The text of one replay line. Bytes past the end of `out` are counted and not written, so a place must be near enough for its sums not to wrap.
#![tactic(auto)]

ghost use Rattle.std.specs.Prelude.{[], ◌∷◌, ◌≡◌, ◌+◌, ◌*◌, ◌≤◌, ◌<◌, ◌^◌, length, take};
ghost use Rattle.model.specs.Replay.{decimal, signed_decimal, chosen as chosenText, space};
ghost use Rattle.records.specs.Wrote.{Wrote, Begins};
ghost use Rattle.lines.specs.Text.{chosen_of, head_text, variables_text, line_text};

use records::put_byte;

// Answers the place behind what it wrote, as all of these do.
pub fn put_char(out: &mut [u8], at: usize, b: u8) -> usize
    requires { at < 2 ^ 63 }
    ensures { Wrote out.old at (b ∷ []) out.new result }
{
    put_byte(out, at, b);
    at + 1
}

pub fn put_text(out: &mut [u8], at: usize, text: &[u8]) -> usize
    requires { at + length text.now < 2 ^ 62 }
    ensures { Wrote out.old at text.now out.new result }
{
    for (i, b) in text.iter().enumerate() {
        put_byte(out, at + i, *b);
    }
    at + text.len()
}

// The higher digits stand first.
pub fn put_decimal(out: &mut [u8], at: usize, n: u32) -> usize
    requires { at < 2 ^ 62 }
    ensures { Wrote out.old at (decimal n) out.new result }
{
    let units = b'0' + ((n % 10) as u8);
    if n < 10 {
        put_char(out, at, units)
    } else {
        let next = put_decimal(out, at, n / 10);
        put_char(out, next, units)
    }
}

pub fn put_signed(out: &mut [u8], at: usize, z: i16) -> usize
    requires { at < 2 ^ 61 }
    ensures { Wrote out.old at (signed_decimal z) out.new result }
{
    if z < 0 {
        let next = put_char(out, at, b'-');
        put_decimal(out, next, z.unsigned_abs() as u32)
    } else {
        put_decimal(out, at, z as u32)
    }
}

// What a chart or automaton took; one that idles takes nothing.
fn put_chosen(out: &mut [u8], at: usize, chosen: Option<u16>) -> usize
    requires { at < 2 ^ 61 }
    ensures { Wrote out.old at (chosenText (chosen_of chosen)) out.new result × (result ≤ at + 5) }
{
    match chosen {
        Some(t) => put_decimal(out, at, t as u32),
        None => put_char(out, at, b'-'),
    }
}

// A number after its space.
fn put_field(out: &mut [u8], at: usize, n: u32) -> usize
    requires { at < 2 ^ 61 }
    ensures { Wrote out.old at (space ∷ decimal n) out.new result }
{
    let next = put_char(out, at, b' ');
    put_decimal(out, next, n)
}

// As many of the first `count` as there are.
fn shown(variables: &[i16], count: u16) -> usize
    ensures { (result ≤ length variables.now) × (result ≤ count) × (take result variables.now ≡ take count variables.now) }
{
    variables.len().min(count as usize)
}

// Each variable after its space, in 7 bytes at most.
fn put_variables(out: &mut [u8], at: usize, variables: &[i16], count: u16) -> usize
    requires { at < 2 ^ 60 }
    ensures { Wrote out.old at (variables_text (take count variables.now)) out.new result × (result ≤ at + 7 * count) }
{
    let mut next = at;
    for v in &variables[..shown(variables, count)] {
        let spaced = put_char(out, next, b' ');
        next = put_signed(out, spaced, *v);
    }
    next
}

// What stands before the variables, in 33 bytes at most.
#[tactic(auto, using(crate::proofs::Digits::decimal_of_32_bits, crate::proofs::Digits::decimal_of_16_bits))]
fn put_head(
    out: &mut [u8],
    at: usize,
    cycle: u32,
    chart: u32,
    chosen: Option<u16>,
    state: u16,
) -> usize
    requires { at < 2 ^ 59 }
    ensures { Wrote out.old at (head_text cycle chart (chosen_of chosen) state) out.new result × (result ≤ at + 33) }
{
    let chart_at = put_decimal(out, at, cycle);
    let space_at = put_field(out, chart_at, chart);
    let chosen_at = put_char(out, space_at, b' ');
    let state_at = put_chosen(out, chosen_at, chosen);
    put_field(out, state_at, state as u32)
}

// A line from `at` on, and how long its numbers' types let it be.
pub fn put_bounded_line(
    out: &mut [u8],
    at: usize,
    cycle: u32,
    chart: u32,
    chosen: Option<u16>,
    state: u16,
    variables: &[i16],
    count: u16,
) -> usize
    requires { at < 2 ^ 59 }
    ensures { Wrote out.old at (line_text cycle chart (chosen_of chosen) state (take count variables.now)) out.new result × (result ≤ at + 34 + 7 * count) }
{
    let variables_at = put_head(out, at, cycle, chart, chosen, state);
    let feed_at = put_variables(out, variables_at, variables, count);
    put_char(out, feed_at, b'\n')
}

// A line at the start; answers its length.
pub fn line_into(
    out: &mut [u8],
    cycle: u32,
    chart: u32,
    chosen: Option<u16>,
    state: u16,
    variables: &[i16],
    count: u16,
) -> usize
    ensures { Begins out.old (line_text cycle chart (chosen_of chosen) state (take count variables.now)) out.new result }
{
    put_bounded_line(out, 0, cycle, chart, chosen, state, variables, count)
}
