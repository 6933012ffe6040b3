// Time: the ticks of milliseconds, when timing triggers hold, how far clocks grow. What the code knows of these stands here alone.
#![tactic(auto)]

ghost use Rattle.std.specs.Prelude.{◌≡◌, ◌≤◌, ◌<◌};
ghost use Rattle.model.specs.Charts.{ticks, after_holds, every_holds};
ghost use Rattle.model.specs.AutomataTable.{Timing};
ghost use Rattle.model.specs.Automata.{top};
ghost use Rattle.timings.specs.Growth.{timing_if, most_top, turn_for, cap_for, grown_to};

// ---- charts

// A tick is 100 milliseconds; to the nearest, an exact half to the even tick.
pub fn ticks(ms: u32) -> u64
    ensures { result ≡ ticks ms }
{
    let down = (ms as u64) / 100;
    let past = ms % 100;
    if past < 50 {
        return down;
    }
    if past > 50 { down + 1 } else { down + down % 2 }
}

// From age d on.
pub fn after_holds(d: u64, age: u32) -> bool
    ensures { result ≡ after_holds d age }
{
    (age as u64) >= d
}

// At the positive multiples of d.
pub fn every_holds(d: u64, age: u32) -> bool
    requires { 0 < d }
    ensures { result ≡ every_holds d age }
{
    (0 < age) & ((age as u64) % d == 0)
}

// ---- clocks

// The highest that a clock of either kind comes to.
pub fn top(ticks: u16) -> u16
    ensures { (k : Timing) → result ≡ top k ticks }
{
    ticks
}

// How a clock grows is told by two limits, so that long runs read them once. Where it goes back to 1: an every-clock at its top, an after-clock nowhere, as
// none comes to 65535.
pub fn turn_for(after: bool, ticks: u16) -> u16
    ensures { result ≡ turn_for (timing_if after) ticks }
{
    if after { 65535 } else { ticks }
}

// The most that a clock grows to: an after-clock's top.
pub fn cap_for(after: bool, ticks: u16) -> u16
    ensures { result ≡ cap_for (timing_if after) ticks }
{
    if after { top(ticks) } else { 65535 }
}

pub fn grown_to(turn: u16, cap: u16, x: u16) -> u16
    requires { x ≤ most_top }
    ensures { result ≡ grown_to turn cap x }
{
    if x == turn {
        return 1;
    }
    if x < cap { x + 1 } else { cap }
}
