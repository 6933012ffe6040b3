// Refusal 4, read for an automata file: a record is clean if the bytes that no field names, or that its codes leave unused, are zero.
ghost use Rattle.std.specs.Prelude.{◌≡◌, ◌≤◌, length};
ghost use Rattle.model.specs.ChartFile.{unused_are_zero};
ghost use Rattle.model.specs.AutomataFile.{unused_literal, unused_update, unused_in_table};

use record_tests::unused::{
    byte_zero, from_eight_zero, from_four_zero, from_ten_zero, node_clean, two_zero,
};
use records::byte_at;

// An event stands at 5, a clock at 6. An unknown code leaves none unused.
#[tactic(auto, using(crate::proofs::UnusedLiterals::by_code))]
fn literal_clean(r: &[u8]) -> bool
    ensures { result ≡ unused_are_zero (unused_literal r.now) r.now }
{
    let code = byte_at(r, 4);
    let event = byte_zero(r, 5);
    let clock = two_zero(r, 6);
    let rest = from_ten_zero(r);
    rest & (((code == 1) | (2 < code) | event) & ((2 <= code) | clock))
}

// A node stands at 6, unless the update raises; a guard at 8.
#[tactic(auto, using(crate::proofs::UnusedLiterals::by_code), unfolding(prelude::specs::Lists::all))]
fn update_clean(r: &[u8]) -> bool
    ensures { result ≡ unused_are_zero (unused_update r.now) r.now }
{
    let code = byte_at(r, 1);
    let first = byte_zero(r, 5);
    let node = two_zero(r, 6);
    let rest = from_ten_zero(r);
    first & (rest & ((code != 2) | node))
}

#[tactic(auto, using(crate::proofs::UnusedLiterals::ranges), unfolding(prelude::specs::Lists::all, prelude::specs::Lists::case_of))]
pub fn record_clean(r: &[u8]) -> bool
    requires { 16 ≤ length r.now }
    ensures { result ≡ unused_are_zero (unused_in_table r.now) r.now }
{
    match byte_at(r, 0) {
        33 => byte_zero(r, 1) & from_four_zero(r),
        34 => two_zero(r, 2) & from_four_zero(r),
        35 => byte_zero(r, 7) & from_eight_zero(r),
        36 => literal_clean(r),
        37 => from_four_zero(r),
        38 => byte_zero(r, 1) & from_eight_zero(r),
        39 => node_clean(r),
        40 => update_clean(r),
        41 => byte_zero(r, 1) & (two_zero(r, 6) & from_eight_zero(r)),
        _ => true,
    }
}
