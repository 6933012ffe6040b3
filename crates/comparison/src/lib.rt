// The proved functions of the lower crates, exported for tests that compare them with the simulator.
#![tactic(auto)]

ghost use Rattle.std.specs.Prelude.{◌≡◌};
ghost use Rattle.std.proofs.lemmas.List.Edits.{sets};
ghost use Rattle.records.specs.Bytes.{byte, two, four, two±, four±, bytes2, bytes4, bytes2±, bytes4±};
ghost use Rattle.expressions.specs.Nodes.{node_at};
ghost use Rattle.expressions.specs.Values.{number, truth};
ghost use Rattle.expressions.specs.Sorts.{sort_of, is_number, is_truth, nodes_named, operands_fit};
ghost use Rattle.expressions.specs.Uses.{add_uses, all_operands};
ghost use Rattle.expressions.specs.Answers.{value_reason_of};
ghost use Rattle.framing.specs.Framing.{framing as framingBy, counts as countsBy, firsts as firstsBy};
ghost use Rattle.comparison.specs.Codes.{number_code, truth_code, reason_code, refusal_code, blank_if_refused};

use expressions::outcomes::Reason;
use records::refusals::refusal_number;
use records::sizes::Variables;

fn reason_code(w: Reason) -> i64
    ensures { result ≡ reason_code (value_reason_of w) }
{
    match w {
        Reason::Range => 4294967311,
        Reason::Divisor => 4294967312,
    }
}

#[unsafe(no_mangle)]
pub extern "C" fn expression_truth(nodes: &[u8], vars: &Variables, n: u16) -> i64
    ensures { result ≡ truth_code (truth (node_at nodes.now) vars.now n) }
{
    match expressions::values::truth_of(nodes, vars, n) {
        Ok(t) => t as i64,
        Err(w) => reason_code(w),
    }
}

#[unsafe(no_mangle)]
pub extern "C" fn expression_number(nodes: &[u8], vars: &Variables, n: u16) -> i64
    ensures { result ≡ number_code (number (node_at nodes.now) vars.now n) }
{
    match expressions::values::number_of(nodes, vars, n) {
        Ok(z) => z as i64,
        Err(w) => reason_code(w),
    }
}

#[unsafe(no_mangle)]
pub extern "C" fn node_is_number(nodes: &[u8], n: u16) -> bool
    ensures { result ≡ is_number (sort_of (node_at nodes.now n)) }
{
    expressions::sorts::is_number(nodes, n)
}

#[unsafe(no_mangle)]
pub extern "C" fn node_is_truth(nodes: &[u8], n: u16) -> bool
    ensures { result ≡ is_truth (sort_of (node_at nodes.now n)) }
{
    expressions::sorts::is_truth(nodes, n)
}

#[unsafe(no_mangle)]
pub extern "C" fn nodes_named(nodes: &[u8], size: u16, variables: u16) -> bool
    ensures { result ≡ nodes_named (node_at nodes.now) size variables }
{
    expressions::sorts::nodes_named(nodes, size, variables)
}

#[unsafe(no_mangle)]
pub extern "C" fn operands_fit(nodes: &[u8], size: u16) -> bool
    ensures { result ≡ operands_fit (node_at nodes.now) size }
{
    expressions::sorts::operands_fit(nodes, size)
}

#[unsafe(no_mangle)]
pub extern "C" fn count_operands(nodes: &[u8], size: u16, uses: &mut [u8])
    ensures { uses.new ≡ add_uses uses.old (all_operands (node_at nodes.now) size) }
{
    expressions::sorts::count_operands(nodes, size, uses);
}

#[unsafe(no_mangle)]
pub extern "C" fn field_byte(s: &[u8], at: usize) -> u8
    ensures { result ≡ byte s.now at }
{
    records::byte_at(s, at)
}

#[unsafe(no_mangle)]
pub extern "C" fn field_u16(s: &[u8], at: usize) -> u16
    ensures { result ≡ two s.now at }
{
    records::u16_at(s, at)
}

#[unsafe(no_mangle)]
pub extern "C" fn field_u32(s: &[u8], at: usize) -> u32
    ensures { result ≡ four s.now at }
{
    records::u32_at(s, at)
}

#[unsafe(no_mangle)]
pub extern "C" fn field_i16(s: &[u8], at: usize) -> i16
    ensures { result ≡ two± s.now at }
{
    records::i16_at(s, at)
}

#[unsafe(no_mangle)]
pub extern "C" fn field_i32(s: &[u8], at: usize) -> i32
    ensures { result ≡ four± s.now at }
{
    records::i32_at(s, at)
}

#[unsafe(no_mangle)]
pub extern "C" fn write_u16(s: &mut [u8], at: usize, v: u16)
    ensures { s.new ≡ sets s.old at (bytes2 v) }
{
    records::put_u16(s, at, v);
}

#[unsafe(no_mangle)]
pub extern "C" fn write_u32(s: &mut [u8], at: usize, v: u32)
    ensures { s.new ≡ sets s.old at (bytes4 v) }
{
    records::put_u32(s, at, v);
}

#[unsafe(no_mangle)]
pub extern "C" fn write_i16(s: &mut [u8], at: usize, v: i16)
    ensures { s.new ≡ sets s.old at (bytes2± v) }
{
    records::put_i16(s, at, v);
}

#[unsafe(no_mangle)]
pub extern "C" fn write_i32(s: &mut [u8], at: usize, v: i32)
    ensures { s.new ≡ sets s.old at (bytes4± v) }
{
    records::put_i32(s, at, v);
}

// The refusal's number, or 0, and the nine counts and first records, all 0 where refused.
#[unsafe(no_mangle)]
pub extern "C" fn framing(
    s: &[u8],
    first: u8,
    most: &[u16],
    counts: &mut [usize; 9],
    firsts: &mut [usize; 9],
) -> u8
    ensures value { result ≡ refusal_code (framingBy first most.now s.now) }
    ensures counts_after { counts.new ≡ blank_if_refused (framingBy first most.now s.now) (countsBy first most.now s.now) }
    ensures firsts_after { firsts.new ≡ blank_if_refused (framingBy first most.now s.now) (firstsBy first most.now s.now) }
{
    match framing::frame_of(s, first, most) {
        Ok(f) => {
            let tally = f.counts;
            *counts = tally;
            let starts = f.firsts;
            *firsts = starts;
            0
        }
        Err(w) => {
            *counts = [0; 9];
            *firsts = [0; 9];
            refusal_number(w)
        }
    }
}
