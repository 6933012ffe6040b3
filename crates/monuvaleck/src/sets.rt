// Calls on chart sets, with a lent run.
ghost use Rattle.std.specs.Prelude.{◌≡◌};
ghost use Rattle.model.specs.Calls.{chart_sets, start_call, turn_call, cycle_call, numbered, answer_code};
ghost use Rattle.answers.specs.Answers.{done_code, count_code};
ghost use Rattle.machines.specs.Playing.{play_call};
ghost use Rattle.chart_runs.specs.RunOf.{run_of};

use answers::{answer_code, count_code, ending_code};
use calls::sets::{cycle, play, start, turn};
use chart_runs::Run;

// The lent run becomes a fresh one.
#[unsafe(no_mangle)]
pub extern "C" fn charts_start(s: &[u8], run: &mut Run) -> i32
    ensures { (result ≡ numbered done_code (start_call chart_sets s.now (run_of run.old)).answer)
        × (run_of run.new ≡ (start_call chart_sets s.now (run_of run.old)).lent) }
{
    ending_code(start(s, run))
}

// A turn: the transition taken, 65,534 where the chart idled, 65,535 where time passed.
#[unsafe(no_mangle)]
pub extern "C" fn charts_turn(s: &[u8], run: &mut Run, events: u32) -> i32
    ensures { (result ≡ numbered answer_code (turn_call chart_sets s.now events (run_of run.old)).answer)
        × (run_of run.new ≡ (turn_call chart_sets s.now events (run_of run.old)).lent) }
{
    answer_code(turn(s, run, events))
}

// A cycle.
#[unsafe(no_mangle)]
pub extern "C" fn charts_cycle(s: &[u8], run: &mut Run, events: u32) -> i32
    ensures { (result ≡ numbered done_code (cycle_call chart_sets s.now events (run_of run.old)).answer)
        × (run_of run.new ≡ (cycle_call chart_sets s.now events (run_of run.old)).lent) }
{
    ending_code(cycle(s, run, events))
}

// Cycles, one for each mask, until one is refused or faults: their number, or why not even the first was done.
#[unsafe(no_mangle)]
pub extern "C" fn charts_play(s: &[u8], run: &mut Run, masks: &[u32]) -> i32
    ensures { (result ≡ numbered count_code (play_call chart_sets s.now masks.now (run_of run.old)).answer)
        × (run_of run.new ≡ (play_call chart_sets s.now masks.now (run_of run.old)).lent) }
{
    count_code(play(s, run, masks))
}
