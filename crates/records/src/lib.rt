// Fields of byte slices, the refusal table and the sizes that document 01 fixes. A read and a write of each width and sign: docs/PROVED.md names each with a
// definition of its own (`two`, `four`, ..), and a const parameter picks no type.
#![tactic(auto)]

ghost use Rattle.std.specs.Prelude.{◌≡◌, ◌+◌, ◌-◌, ◌*◌, ◌/◌, ◌<◌, ◌^◌, length, set};
ghost use Rattle.std.proofs.lemmas.List.Edits.{sets};
ghost use Rattle.records.specs.Bytes.{byte, two, four, signed, two±, four±, bytes2, bytes4, unsigned, bytes2±, bytes4±};

pub mod refusals;
pub mod sizes;

// The byte at a place, 0 past the end.
pub fn byte_at(s: &[u8], at: usize) -> u8
    ensures { result ≡ byte s.now at }
{
    if at < s.len() { s[at] } else { 0 }
}

// Two bytes and four that are all within: the test is the caller's.
pub fn u16_within(s: &[u8], at: usize) -> u16
    requires { at + 1 < length s.now }
    ensures { result ≡ two s.now at }
{
    u16::from_le_bytes([s[at], s[at + 1]])
}

pub fn u32_within(s: &[u8], at: usize) -> u32
    requires { at + 3 < length s.now }
    ensures { result ≡ four s.now at }
{
    u32::from_le_bytes([s[at], s[at + 1], s[at + 2], s[at + 3]])
}

// One test where all bytes are within. Past the end all are 0.
pub fn u16_at(s: &[u8], at: usize) -> u16
    ensures { result ≡ two s.now at }
{
    if at < s.len().saturating_sub(1) {
        u16_within(s, at)
    } else {
        byte_at(s, at) as u16
    }
}

pub fn u32_at(s: &[u8], at: usize) -> u32
    ensures { result ≡ four s.now at }
{
    if at < s.len().saturating_sub(3) {
        return u32_within(s, at);
    }
    if at < s.len() {
        (u16_at(s, at) as u32) + 65536 * (u16_at(s, at + 2) as u32)
    } else {
        0
    }
}

#[tactic(auto, using(crate::proofs::Fields::signed_bits))]
pub fn i16_at(s: &[u8], at: usize) -> i16
    ensures { result ≡ two± s.now at }
{
    u16_at(s, at).cast_signed()
}

#[tactic(auto, using(crate::proofs::Fields::signed_bits))]
pub fn i32_within(s: &[u8], at: usize) -> i32
    requires { at + 3 < length s.now }
    ensures { result ≡ four± s.now at }
{
    u32_within(s, at).cast_signed()
}

#[tactic(auto, using(crate::proofs::Fields::signed_bits))]
pub fn i32_at(s: &[u8], at: usize) -> i32
    ensures { result ≡ four± s.now at }
{
    u32_at(s, at).cast_signed()
}

// Writes at a place: bytes past the end are not written, and the rest is kept.
pub fn put_byte(s: &mut [u8], at: usize, v: u8)
    ensures { s.new ≡ set s.old at v }
{
    if at < s.len() {
        s[at] = v;
    }
}

pub fn put_u16(s: &mut [u8], at: usize, v: u16)
    ensures { s.new ≡ sets s.old at (bytes2 v) }
{
    if at < s.len() {
        let bytes = v.to_le_bytes();
        put_byte(s, at, bytes[0]);
        put_byte(s, at + 1, bytes[1]);
    }
}

pub fn put_u32(s: &mut [u8], at: usize, v: u32)
    ensures { s.new ≡ sets s.old at (bytes4 v) }
{
    if at < s.len() {
        put_u16(s, at, (v % 65536) as u16);
        put_u16(s, at + 2, (v / 65536) as u16);
    }
}

// The bits of a number.
#[tactic(auto, using(crate::proofs::Fields::unsigned_bits))]
pub fn unsigned32(z: i32) -> u32
    ensures { result ≡ unsigned (2 ^ 31) z }
{
    z.cast_unsigned()
}

#[tactic(auto, using(crate::proofs::Fields::unsigned_bits))]
pub fn put_i16(s: &mut [u8], at: usize, v: i16)
    ensures { s.new ≡ sets s.old at (bytes2± v) }
{
    put_u16(s, at, v.cast_unsigned());
}

pub fn put_i32(s: &mut [u8], at: usize, v: i32)
    ensures { s.new ≡ sets s.old at (bytes4± v) }
{
    put_u32(s, at, unsigned32(v));
}
