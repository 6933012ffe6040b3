// Spaces, numbers, operators and marks of a line. A place lies in the text or behind its last byte.
ghost use Rattle.std.specs.Prelude.{◌≡◌, Some, ◌+◌, ◌≤◌, ◌<◌, ◌^◌, length, drop};
ghost use Rattle.guards.specs.Grammar.{is_digit, digits_after, up_to, numeral as numeralOf, operator_by, operator_at};
ghost use Rattle.guard_reader.specs.Places.{Skipped, FindsMark, ReadsNumber, SignIs};

use records::byte_at;

// An operator: its code in a node's record, its level, and the place behind it.
#[derive(Clone, Copy)]
pub struct Sign {
    pub code: u8,
    pub level: u8,
    pub next: usize,
}

// The first place from `at` on that has no space. The loop names that place, where `position` would count from `at`.
pub fn skip(text: &[u8], at: usize) -> usize
    requires { at ≤ length text.now }
    ensures { Skipped text.now at result }
{
    for i in at..text.len() {
        if text[i] != b' ' {
            return i;
        }
    }
    text.len()
}

// The place behind a mark that stands at `at` or behind spaces from there.
pub fn past(text: &[u8], at: usize, mark: u8) -> Option<usize>
    requires { (at ≤ length text.now) × (length text.now ≤ 256) × (0 < mark) }
    ensures { FindsMark text.now at mark result }
{
    let i = skip(text, at);
    if byte_at(text, i) == mark {
        Some(i + 1)
    } else {
        None
    }
}

fn is_digit(b: u8) -> bool
    ensures { result ≡ is_digit b }
{
    (b'0' <= b) & (b <= b'9')
}

// The number of the digits from `at` on, which ends at the first that makes it too large, and the place behind it.
fn digits(text: &[u8], at: usize, most: u32) -> Option<(u32, usize)>
    requires { (at ≤ length text.now) × (length text.now ≤ 256) × (most ≤ 2 ^ 31) }
    ensures { ReadsNumber text.now at most (up_to most (digits_after 0 (drop at text.now))) result }
{
    let mut n: u64 = 0;
    for i in at..text.len() {
        let b = text[i];
        if !is_digit(b) {
            return Some((n as u32, i));
        }
        n = 10 * n + ((b - b'0') as u64);
        if (most as u64) < n {
            return None;
        }
    }
    Some((n as u32, text.len()))
}

pub fn number_at(text: &[u8], at: usize, most: u32) -> Option<(u32, usize)>
    requires { (at ≤ length text.now) × (length text.now ≤ 256) × (most ≤ 2 ^ 31) }
    ensures { ReadsNumber text.now (at + 1) most (numeralOf most (drop at text.now)) result }
{
    let b = byte_at(text, at);
    if !is_digit(b) {
        return None;
    }
    if (b == b'0') & is_digit(byte_at(text, at + 1)) {
        return None;
    }
    digits(text, at, most)
}

fn operator(code: u8, level: u8, next: usize) -> Option<Sign>
    ensures { result ≡ Some (record { code = code; level = level; next = next }) }
{
    Some(Sign { code, level, next })
}

// One byte, or two where the first alone is no operator, or another one.
#[tactic(auto, unfolding(prelude::specs::Lists::case_of))]
fn sign_by(a: u8, b: u8, at: usize) -> Option<Sign>
    requires { at ≤ 256 }
    ensures { SignIs (operator_by a b) at result }
{
    match a {
        b'*' => operator(5, 2, at + 1),
        b'/' => operator(6, 2, at + 1),
        b'%' => operator(7, 2, at + 1),
        b'+' => operator(3, 3, at + 1),
        b'-' => operator(4, 3, at + 1),
        b'<' => if b == b'=' {
            operator(18, 4, at + 2)
        } else {
            operator(17, 4, at + 1)
        },
        b'=' => if b == b'=' {
            operator(16, 4, at + 2)
        } else {
            None
        },
        b'&' => if b == b'&' {
            operator(20, 5, at + 2)
        } else {
            None
        },
        b'|' => if b == b'|' {
            operator(21, 6, at + 2)
        } else {
            None
        },
        _ => None,
    }
}

pub fn sign_at(text: &[u8], at: usize) -> Option<Sign>
    requires { at ≤ 256 }
    ensures { SignIs (operator_at (drop at text.now)) at result }
{
    sign_by(byte_at(text, at), byte_at(text, at + 1), at)
}
