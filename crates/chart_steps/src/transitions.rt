// The fields of a transition that a turn reads, and whether it holds. Its record is in an accepted file, so that reads need no test of the length, as those of
// chart_records::fields do.
ghost use Rattle.std.specs.Prelude.{◌≡◌, ◌<◌};
ghost use Rattle.expressions.specs.Answers.{truth_of};
ghost use Rattle.model.specs.ChartSet.{read_charts};
ghost use Rattle.model.specs.Charts.{transition_holds};
ghost use Rattle.chart_records.specs.Places.{transition_at};
ghost use Rattle.machines.specs.Worlds.{bare_world};
ghost use Rattle.chart_records.specs.Accepted.{Accepted};

use super::triggers::triggered;
use super::values::values_of;
use chart_records::Shape;
use chart_records::fields::first_transition;
use expressions::outcomes::Reason;
use machines::values::guard_holds;
use records::sizes::Variables;
use records::u16_within;

pub fn source_of(s: &[u8], shape: Shape, t: u16) -> u16
    requires { Accepted s.now shape × (t < shape.transitions) }
    ensures { result ≡ (transition_at s.now shape t).source }
{
    u16_within(s, 16 * (first_transition(shape) + (t as usize)) + 2)
}

pub fn target_of(s: &[u8], shape: Shape, t: u16) -> u16
    requires { Accepted s.now shape × (t < shape.transitions) }
    ensures { result ≡ (transition_at s.now shape t).target }
{
    u16_within(s, 16 * (first_transition(shape) + (t as usize)) + 4)
}

// The trigger first, then the guard only if the trigger holds.
pub fn holds(
    s: &[u8],
    shape: Shape,
    vars: &Variables,
    events: u32,
    age: u32,
    t: u16,
) -> Result<bool, Reason>
    requires { Accepted s.now shape × (t < shape.transitions) }
    ensures { truth_of result ≡ transition_holds (read_charts s.now) (bare_world vars.now events) age t }
{
    let n = first_transition(shape) + (t as usize);
    if triggered(s, n, age, events) {
        guard_holds(s, values_of(shape), vars, u16_within(s, 16 * n + 12))
    } else {
        Ok(false)
    }
}
