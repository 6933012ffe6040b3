// Words and numbers of a line, written into a lent buffer from a place on; each answers the place behind what it wrote.
ghost use Rattle.std.specs.Prelude.{◌++◌, ◌*◌, ◌≤◌, ◌<◌, ◌^◌, length};
ghost use Rattle.records.specs.Bytes.{signed};
ghost use Rattle.model.specs.Replay.{decimal, signed_decimal};
ghost use Rattle.listing_parts.specs.Parts.{WroteNear};

use lines::{put_decimal, put_text};

pub fn put_word(out: &mut [u8], at: usize, word: &[u8]) -> usize
    requires { (at < 2 ^ 20) × (length word.now ≤ 20) }
    ensures { WroteNear 20 out.old at word.now out.new result }
{
    put_text(out, at, word)
}

#[tactic(auto, using(lines::proofs::Digits::decimal_of_32_bits))]
fn put_number(out: &mut [u8], at: usize, n: u32) -> usize
    requires { at < 2 ^ 21 }
    ensures { WroteNear 10 out.old at (decimal n) out.new result }
{
    put_decimal(out, at, n)
}

// A word, then a number.
pub fn put_named(out: &mut [u8], at: usize, word: &[u8], n: u32) -> usize
    requires { (at < 2 ^ 20) × (length word.now ≤ 20) }
    ensures { WroteNear 32 out.old at (word.now ++ decimal n) out.new result }
{
    let next = put_word(out, at, word);
    put_number(out, next, n)
}

// In two's complement, by its bits and half of what they count up to.
fn put_twos(out: &mut [u8], at: usize, bits: u32, half: u32) -> usize
    requires { (at < 2 ^ 20) × (half ≤ 2 ^ 31) × (bits < 2 * half) }
    ensures { WroteNear 11 out.old at (signed_decimal (signed half bits)) out.new result }
{
    if bits < half {
        put_number(out, at, bits)
    } else {
        let digits = put_text(out, at, b"-");
        put_number(out, digits, half - (bits - half))
    }
}

// A word, then a number in two's complement.
pub fn put_signed(out: &mut [u8], at: usize, word: &[u8], bits: u32, half: u32) -> usize
    requires { (at < 2 ^ 19) × (length word.now ≤ 20) × (half ≤ 2 ^ 31) × (bits < 2 * half) }
    ensures { WroteNear 32 out.old at (word.now ++ signed_decimal (signed half bits)) out.new result }
{
    let next = put_word(out, at, word);
    put_twos(out, next, bits, half)
}

// A word, a number and its unit.
pub fn put_measured(out: &mut [u8], at: usize, word: &[u8], n: u32, unit: &[u8]) -> usize
    requires { (at < 2 ^ 19) × (length word.now ≤ 20) × (length unit.now ≤ 20) }
    ensures { WroteNear 52 out.old at ((word.now ++ decimal n) ++ unit.now) out.new result }
{
    let next = put_named(out, at, word, n);
    put_word(out, next, unit)
}
