// Sums, products and comparisons of 32-bit numbers, worked out in 64 bits. An outcome is one number, so that a register holds it: a number of 32 bits is
// itself, and a fault is above them. A Result goes through memory, which is slower (docs/DECISIONS.md, "Inner answers are one number").
#![tactic(auto)]

ghost use Rattle.std.specs.Prelude.{◌≡◌};
ghost use Rattle.arithmetic.specs.Operators.{sum, difference, product, quotient, remainder, arithmetic_of, comparison_of};
ghost use Rattle.arithmetic.specs.Arithmetic.{in_range, compute, compare};
ghost use Rattle.arithmetic.specs.Outcomes.{StandsFor, BothNarrow};

// The outcomes that are faults, above the highest number.
pub const HIGHEST: i64 = 2147483647;

pub const OUT_OF_RANGE: i64 = 4294967296;

pub const ZERO_DIVISOR: i64 = 4294967297;

pub fn wide(x: i32) -> i64
    ensures { result ≡ x }
{
    x as i64
}

// The one place where a number is refused for its size.
fn in_range(z: i64) -> i64
    ensures { StandsFor result (in_range z) }
{
    if -2147483648 <= z && z <= HIGHEST {
        z
    } else {
        OUT_OF_RANGE
    }
}

fn add(a: i64, b: i64) -> i64
    requires { BothNarrow a b }
    ensures { StandsFor result (compute sum a b) }
{
    in_range(a + b)
}

fn subtract(a: i64, b: i64) -> i64
    requires { BothNarrow a b }
    ensures { StandsFor result (compute difference a b) }
{
    in_range(a - b)
}

fn multiply(a: i64, b: i64) -> i64
    requires { BothNarrow a b }
    ensures { StandsFor result (compute product a b) }
{
    in_range(a * b)
}

fn divide(a: i64, b: i64) -> i64
    requires { BothNarrow a b }
    ensures { StandsFor result (compute quotient a b) }
{
    if b == 0 {
        ZERO_DIVISOR
    } else {
        in_range(a / b)
    }
}

// No remainder is out of range: it is no further from 0 than the dividend.
fn remainder(a: i64, b: i64) -> i64
    requires { BothNarrow a b }
    ensures { StandsFor result (compute remainder a b) }
{
    if b == 0 { ZERO_DIVISOR } else { a % b }
}

// By the operator's code, of 3 to 7. Tests take fewer instructions than the table of jumps that a `match` is compiled to.
#[tactic(auto, unfolding(prelude::specs::Lists::case_of))]
pub fn compute(code: u8, a: i64, b: i64) -> i64
    requires { BothNarrow a b }
    ensures { StandsFor result (compute (arithmetic_of code) a b) }
{
    if code < 5 {
        if code == 3 {
            return add(a, b);
        }
        if code == 4 {
            return subtract(a, b);
        }
    } else {
        if code == 5 {
            return multiply(a, b);
        }
        if code == 6 {
            return divide(a, b);
        }
    }
    remainder(a, b)
}

// By the operator's code, of 16 to 18.
#[tactic(auto, unfolding(prelude::specs::Lists::case_of))]
pub fn compare(code: u8, a: i64, b: i64) -> bool
    ensures { result ≡ compare (comparison_of code) a b }
{
    match code {
        16 => a == b,
        17 => a < b,
        _ => a <= b,
    }
}
