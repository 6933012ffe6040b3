// Refusal 4: a record is clean if the bytes that no field names, or that its codes leave unused, are zero.
ghost use Rattle.std.specs.Prelude.{◌≡◌, ◌+◌, ◌≤◌, length};
ghost use Rattle.model.specs.ChartFile as F;

use super::codes::node_in_code;
use records::{byte_at, u16_at, u16_within, u32_at, u32_within};

// A byte, and the two and four bytes from k on. Read so, a range costs a test a word.
pub fn byte_zero(r: &[u8], k: usize) -> bool
    ensures { result ≡ F.zero_bytes k k r.now }
{
    byte_at(r, k) == 0
}

pub fn two_zero(r: &[u8], k: usize) -> bool
    ensures { result ≡ F.zero_bytes k (k + 1) r.now }
{
    u16_at(r, k) == 0
}

pub fn four_zero(r: &[u8], k: usize) -> bool
    ensures { result ≡ F.zero_bytes k (k + 3) r.now }
{
    u32_at(r, k) == 0
}

// The bytes of a record from 10 on, from 8 on, and from 4 on.
pub fn from_ten_zero(r: &[u8]) -> bool
    ensures { result ≡ F.zero_bytes 10 15 r.now }
{
    two_zero(r, 10) & four_zero(r, 12)
}

pub fn from_eight_zero(r: &[u8]) -> bool
    ensures { result ≡ F.zero_bytes 8 15 r.now }
{
    four_zero(r, 8) & four_zero(r, 12)
}

pub fn from_four_zero(r: &[u8]) -> bool
    ensures { result ≡ F.zero_bytes 4 15 r.now }
{
    four_zero(r, 4) & from_eight_zero(r)
}

// An event stands at 7, milliseconds at 8. An unknown code leaves none unused.
#[tactic(auto, unfolding(prelude::specs::Lists::case_of, prelude::specs::Lists::all))]
fn transition_clean(r: &[u8]) -> bool
    ensures { result ≡ F.unused_are_zero (F.unused_transition r.now) r.now }
{
    let code = byte_at(r, 6);
    let event = byte_zero(r, 7);
    let ms = four_zero(r, 8);
    let rest = two_zero(r, 14);
    rest & (((code == 1) | (3 < code) | event) & ((2 <= code) | ms))
}

// Operands stand at 2, 4 and 6, a constant at 8. An unknown code leaves none unused. All is within, so no length is asked for.
pub fn node_clean(r: &[u8]) -> bool
    requires { 16 ≤ length r.now }
    ensures { result ≡ F.unused_are_zero (F.unused_node r.now) r.now }
{
    let code = byte_at(r, 1);
    let known = node_in_code(r);
    let first = u16_within(r, 2);
    let second = u16_within(r, 4);
    let third = u16_within(r, 6);
    let constant = u32_within(r, 8);
    let rest = u32_within(r, 12);
    let fine = ((code != 1) | (first == 0))
        & (!((code == 1) | (code == 2) | (code == 19)) | (second == 0))
        & ((code == 8) | (third == 0))
        & ((code == 1) | (constant == 0));
    (rest == 0) & (!known | fine)
}

// A node stands at 6, unless the action raises; a guard at 8; milliseconds at 12, if it waits. An unknown place leaves none unused.
#[tactic(auto, unfolding(prelude::specs::Lists::case_of, prelude::specs::Lists::all))]
fn action_clean(r: &[u8]) -> bool
    ensures { result ≡ F.unused_are_zero (F.unused_action r.now) r.now }
{
    let place = byte_at(r, 1);
    let code = byte_at(r, 4);
    let node = two_zero(r, 6);
    let rest = two_zero(r, 10);
    let ms = four_zero(r, 12);
    rest & ((place == 0) | (3 < place) | ms) & ((code != 2) | node)
}

#[tactic(auto, unfolding(prelude::specs::Lists::case_of, prelude::specs::Lists::all))]
pub fn record_clean(r: &[u8]) -> bool
    requires { 16 ≤ length r.now }
    ensures { result ≡ F.unused_are_zero (F.unused r.now) r.now }
{
    match byte_at(r, 0) {
        1 => byte_zero(r, 1) & from_four_zero(r),
        2 => two_zero(r, 2) & from_four_zero(r),
        3 => transition_clean(r),
        4 => byte_zero(r, 1) & from_eight_zero(r),
        5 => node_clean(r),
        6 => action_clean(r),
        _ => true,
    }
}
