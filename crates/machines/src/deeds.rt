// Events, and deeds on variables and events.
ghost use Rattle.std.specs.Prelude.{◌≡◌, true, ◌&&◌, List, ℕ, ◌+◌, ◌<◌, ◌^◌, ℤ, get_or};
ghost use Rattle.std.specs.Int.Signed.{le_z, mag};
ghost use Rattle.records.specs.Refusal.{refusal_number, fault};
ghost use Rattle.records.specs.RefusalOf.{out_of};
ghost use Rattle.expressions.specs.Answers as expressions-answers;
ghost use Rattle.model.specs.Runs.{in_bounds, no_variable, present, raised, assign, deed, action};
ghost use Rattle.model.specs.ChartSet.{read_deed, action_by};
ghost use Rattle.machines.specs.Deeds.{Doable};
ghost use Rattle.machines.specs.Files.{variables_in, nodes_in, HasValues};
ghost use Rattle.answers.specs.Answers.{reason_of};
ghost use Rattle.machines.specs.Worlds.{Moment, world_in, world_after, coded_fault, coded, IsCode, world_by};

use super::values::{Values, bound_within, number_at, plus_one_holds};
use answers::{Reason, reason_number};
use records::sizes::Variables;

pub fn present(e: u8, events: u32) -> bool
    requires { e < 32 }
    ensures { result ≡ present e events }
{
    (events >> (e as u32)) % 2 == 1
}

// Raised again, an event stays present.
pub fn raised(e: u8, events: u32) -> u32
    requires { e < 32 }
    ensures { result ≡ raised e events }
{
    if present(e, events) {
        events
    } else {
        events + (1 << (e as u32))
    }
}

// What is within bounds of 16 bits has 16 bits.
fn is_between(z: i32, lowest: i16, highest: i16) -> bool
    ensures { (result ≡ (le_z lowest z && le_z z highest)) × (result ≡ true → mag z < 2 ^ 15) }
{
    ((lowest as i32) <= z) & (z <= (highest as i32))
}

fn is_within(s: &[u8], values: Values, v: u8, z: i32) -> bool
    requires { HasValues s.now values × (v < values.variables) }
    ensures { (result ≡ in_bounds (get_or (variables_in s.now values) v no_variable) z) × (result ≡ true → mag z < 2 ^ 15) }
{
    is_between(
        z,
        bound_within(s, values, v, 2),
        bound_within(s, values, v, 4),
    )
}

// Answers as one number: events are below 2^32, and a fault is 2^32 and its number in the refusal table. It stays in a register, where a Result would go
// through memory (docs/DECISIONS.md, "Inner answers are one number").
const FAULTS: u64 = 4294967296;

fn fault_number(w: Reason) -> u64
    ensures { result ≡ 4_294_967_296 + refusal_number (reason_of w) }
{
    FAULTS + (reason_number(w) as u64)
}

pub fn fault_code(w: expressions::outcomes::Reason) -> u64
    ensures { (4294967295 < result) × (coded result ≡ fault (expressions-answers.value_reason_of w)) × IsCode result }
{
    fault_number(w.into())
}

// By tests: a `match` on the numbers becomes a table of jumps (docs/DECISIONS.md, "Nodes below a root have whole records").
pub fn reason_by(code: u64) -> Reason
    ensures { reason_of result ≡ coded_fault code }
{
    if code == FAULTS + (Reason::Range as u64) {
        Reason::Range
    } else if code == FAULTS + (Reason::Divisor as u64) {
        Reason::Divisor
    } else {
        Reason::Bounds
    }
}

// The events afterwards, or why there are none.
pub fn done_by(code: u64) -> Result<u32, Reason>
    ensures { ((vars : List ℤ) (m : Moment) → world_after result vars m ≡ world_by code vars m) × ((w : Reason) → result ≡ Err w → 4_294_967_295 < code)
        × (out_of reason_of result ≡ coded code) × ((events : ℕ) → result ≡ Ok events → events ≡ code) }
{
    if 4294967295 < code {
        Err(reason_by(code))
    } else {
        Ok(code as u32)
    }
}

// Node n assigned to variable v: the events afterwards, or the fault, as one number. A fault assigns nothing.
fn assign_code(s: &[u8], values: Values, v: u8, n: u16, vars: &mut Variables, events: u32) -> u64
    requires { HasValues s.now values × (v < values.variables) }
    ensures { ((m : Moment) → world_by result vars.new m ≡ deed (nodes_in s.now values) (variables_in s.now values) (assign v n) (world_in vars.old events m))
        × IsCode result × (4_294_967_295 < result → vars.new ≡ vars.old) }
{
    match number_at(s, values, vars, n) {
        Err(w) => fault_code(w),
        Ok(z) => {
            if is_within(s, values, v, z) {
                let i = v as usize;
                vars[i] = z as i16;
                events as u64
            } else {
                fault_number(Reason::Bounds)
            }
        }
    }
}

// A deed by its fields, which stay in registers: code 2 raises, another assigns. The code is tested as the record has it: an enum would be told apart once
// more.
#[tactic(auto, unfolding(prelude::specs::Lists::case_of))]
fn do_deed(
    s: &[u8],
    values: Values,
    code: u8,
    x: u8,
    n: u16,
    vars: &mut Variables,
    events: u32,
) -> u64
    requires { HasValues s.now values × Doable values.variables (read_deed code x n) }
    ensures { ((m : Moment) → world_by result vars.new m ≡ deed (nodes_in s.now values) (variables_in s.now values) (read_deed code x n) (world_in vars.old events m))
        × IsCode result × (4_294_967_295 < result → vars.new ≡ vars.old) }
{
    if code == 2 {
        raised(x, events) as u64
    } else {
        assign_code(s, values, x, n, vars, events)
    }
}

// An action or update by the fields of its record, as do_deed takes them: it is skipped where its guard is false. The events afterwards, or the fault, as one
// number.
pub fn do_guarded(
    s: &[u8],
    values: Values,
    guard: u16,
    code: u8,
    x: u8,
    n: u16,
    vars: &mut Variables,
    events: u32,
) -> u64
    requires { HasValues s.now values × Doable values.variables (read_deed code x n) }
    ensures { ((m : Moment) → world_by result vars.new m ≡ action (nodes_in s.now values) (variables_in s.now values) (action_by guard code x n) (world_in vars.old events m))
        × IsCode result × (4_294_967_295 < result → vars.new ≡ vars.old) }
{
    match plus_one_holds(s, values, vars, guard) {
        Err(w) => fault_code(w),
        Ok(holding) => {
            if holding {
                do_deed(s, values, code, x, n, vars, events)
            } else {
                events as u64
            }
        }
    }
}
