// Calls on tables of automata, with a lent run.
ghost use Rattle.std.specs.Prelude.{◌≡◌};
ghost use Rattle.model.specs.Calls.{automata_tables, start_call, turn_call, cycle_call, numbered, answer_code};
ghost use Rattle.answers.specs.Answers.{done_code, count_code};
ghost use Rattle.machines.specs.Playing.{play_call};
ghost use Rattle.automata.specs.RunOf.{run_of};

use answers::{answer_code, count_code, ending_code};
use automata::runs::Run;
use calls::tables::{cycle, play, start, turn};

// The lent run becomes a fresh one.
#[unsafe(no_mangle)]
pub extern "C" fn automata_start(s: &[u8], run: &mut Run) -> i32
    ensures { (result ≡ numbered done_code (start_call automata_tables s.now (run_of run.old)).answer)
        × (run_of run.new ≡ (start_call automata_tables s.now (run_of run.old)).lent) }
{
    ending_code(start(s, run))
}

// A turn: the edge taken, 65,535 where time passed.
#[unsafe(no_mangle)]
pub extern "C" fn automata_turn(s: &[u8], run: &mut Run, events: u32) -> i32
    ensures { (result ≡ numbered answer_code (turn_call automata_tables s.now events (run_of run.old)).answer)
        × (run_of run.new ≡ (turn_call automata_tables s.now events (run_of run.old)).lent) }
{
    answer_code(turn(s, run, events))
}

// A cycle.
#[unsafe(no_mangle)]
pub extern "C" fn automata_cycle(s: &[u8], run: &mut Run, events: u32) -> i32
    ensures { (result ≡ numbered done_code (cycle_call automata_tables s.now events (run_of run.old)).answer)
        × (run_of run.new ≡ (cycle_call automata_tables s.now events (run_of run.old)).lent) }
{
    ending_code(cycle(s, run, events))
}

// Cycles, one for each mask, until one is refused or faults: their number, or why not even the first was done.
#[unsafe(no_mangle)]
pub extern "C" fn automata_play(s: &[u8], run: &mut Run, masks: &[u32]) -> i32
    ensures { (result ≡ numbered count_code (play_call automata_tables s.now masks.now (run_of run.old)).answer)
        × (run_of run.new ≡ (play_call automata_tables s.now masks.now (run_of run.old)).lent) }
{
    count_code(play(s, run, masks))
}
