// Refusal 9: timing triggers and waiting actions of 0 ticks.
ghost use Rattle.std.specs.Prelude.{◌≡◌, not, ◌||◌, ltb, eqb};
ghost use Rattle.prelude.specs.Lists.{all};
ghost use Rattle.model.specs.Charts as charts;
ghost use Rattle.model.specs.ChartSet.{read_charts};
ghost use Rattle.model.specs.ChartFile as F;
ghost use Rattle.chart_records.specs.Shape.{IsShape};
ghost use Rattle.chart_records.specs.Parts.{trigger_for};
ghost use Rattle.chart_records.specs.Places.{place_at, wait_at};

use chart_records::Shape;
use chart_records::fields::{Trigger, place_of, trigger_of, wait_of};
use timings::ticks;

pub fn ticking(t: Trigger) -> bool
    ensures { result ≡ F.ticking (trigger_for t) }
{
    match t {
        Trigger::Always | Trigger::Event(_) => true,
        Trigger::After(ms) | Trigger::Every(ms) => 0 < ticks(ms),
    }
}

fn triggers_tick(s: &[u8], shape: Shape) -> bool
    requires { IsShape s.now shape }
    ensures { result ≡ all (λ t. F.ticking t.trigger) (read_charts s.now).transitions }
{
    (0..shape.transitions).all(|t| ticking(trigger_of(s, shape, t)))
}

// An action of another place passes.
pub fn wait_ticks(s: &[u8], shape: Shape, i: u16) -> bool
    ensures { result ≡ (not (eqb (place_at s.now shape i) 4) || ltb 0 (charts.ticks (wait_at s.now shape i).1)) }
{
    (place_of(s, shape, i) != 4) | (0 < ticks(wait_of(s, shape, i)))
}

fn waits_tick(s: &[u8], shape: Shape) -> bool
    requires { IsShape s.now shape }
    ensures { result ≡ all (λ x. ltb 0 (charts.ticks x.1)) (read_charts s.now).waiting_times }
{
    (0..shape.actions).all(|i| wait_ticks(s, shape, i))
}

pub fn all_ticking(s: &[u8], shape: Shape) -> bool
    requires { IsShape s.now shape }
    ensures { result ≡ F.all_ticking (read_charts s.now) }
{
    triggers_tick(s, shape) & waits_tick(s, shape)
}
