// Literals as their records have them, and whether one holds.
ghost use Rattle.std.specs.Prelude.{◌≡◌, List, ◌≤◌, ◌<◌, ℤ};
ghost use Rattle.expressions.specs.Answers.{truth_of};
ghost use Rattle.model.specs.AutomataTable.{read_automata};
ghost use Rattle.model.specs.Automata.{literal_trigger_holds, condition_holds, literal_holds};
ghost use Rattle.automata_records.specs.Places.{first_literal, first_clock, literal_in};
ghost use Rattle.automata_records.specs.Accepted.{Accepted};
ghost use Rattle.automata_steps.specs.StepOf.{bare_run};

use super::fields::{byte_of, must_hold, ticks_of, two_of};
use super::values::values_of;
use automata_records::Shape;
use expressions::outcomes::Reason;
use machines::deeds::present;
use machines::values::guard_holds;
use records::sizes::{Clocks, Variables};

// Whether the trigger of literal n holds; a clock's holds at the clock's ticks.
fn trigger_holds(s: &[u8], shape: Shape, clocks: &Clocks, events: u32, n: u16) -> bool
    requires { Accepted s.now shape × (first_literal shape ≤ n) × (n < first_clock shape) }
    ensures { (vars : List ℤ) → result ≡ literal_trigger_holds (read_automata s.now) (bare_run clocks.now vars events) (literal_in s.now n).1.trigger }
{
    let code = byte_of(s, n, 4);
    if code == 1 {
        return present(byte_of(s, n, 5), events);
    }
    if code == 2 {
        let k = two_of(s, n, 6);
        let i = k as usize;
        return clocks[i] == ticks_of(s, shape, k);
    }
    true
}

// The trigger first, then the guard only if the trigger holds. The literal is that of record n.
fn condition_holds(
    s: &[u8],
    shape: Shape,
    clocks: &Clocks,
    vars: &Variables,
    events: u32,
    n: u16,
) -> Result<bool, Reason>
    requires { Accepted s.now shape × (first_literal shape ≤ n) × (n < first_clock shape) }
    ensures { truth_of result ≡ condition_holds (read_automata s.now) (bare_run clocks.now vars.now events) (literal_in s.now n).1 }
{
    if trigger_holds(s, shape, clocks, events, n) {
        guard_holds(s, values_of(shape), vars, two_of(s, n, 8))
    } else {
        Ok(false)
    }
}

// The condition must hold, or must not.
pub fn literal_holds(
    s: &[u8],
    shape: Shape,
    clocks: &Clocks,
    vars: &Variables,
    events: u32,
    n: u16,
) -> Result<bool, Reason>
    requires { Accepted s.now shape × (first_literal shape ≤ n) × (n < first_clock shape) }
    ensures { truth_of result ≡ literal_holds (read_automata s.now) (bare_run clocks.now vars.now events) (literal_in s.now n).1 }
{
    let must = must_hold(s, n);
    let holding = condition_holds(s, shape, clocks, vars, events, n)?;
    Ok(holding == must)
}
