// Calls on automata tables.
ghost use Rattle.std.specs.Prelude.{◌≡◌};
ghost use Rattle.model.specs.Calls.{automata_tables, start_call, turn_call, cycle_call};
ghost use Rattle.answers.specs.Answers.{answer_of, ending_of, cycles_of};
ghost use Rattle.machines.specs.Playing.{play_call};
ghost use Rattle.automata.specs.RunOf.{run_of};

use answers::{Answer, Stop};
use automata::runs::Run;
use automata_files::check;

// The lent run becomes a fresh one.
pub fn start(s: &[u8], run: &mut Run) -> Result<(), Stop>
    ensures { (ending_of result ≡ (start_call automata_tables s.now (run_of run.old)).answer)
        × (run_of run.new ≡ (start_call automata_tables s.now (run_of run.old)).lent) }
{
    let shape = check(s)?;
    automata::lent::start(s, shape, run)
}

pub fn turn(s: &[u8], run: &mut Run, events: u32) -> Answer
    ensures { (answer_of result ≡ (turn_call automata_tables s.now events (run_of run.old)).answer)
        × (run_of run.new ≡ (turn_call automata_tables s.now events (run_of run.old)).lent) }
{
    match check(s) {
        Ok(shape) => automata::lent::turn(s, shape, run, events),
        Err(w) => Answer::Refused(w),
    }
}

pub fn cycle(s: &[u8], run: &mut Run, events: u32) -> Result<(), Stop>
    ensures { (ending_of result ≡ (cycle_call automata_tables s.now events (run_of run.old)).answer)
        × (run_of run.new ≡ (cycle_call automata_tables s.now events (run_of run.old)).lent) }
{
    let shape = check(s)?;
    automata::lent::cycle(s, shape, run, events)
}

// Many cycles, the file checked once.
pub fn play(s: &[u8], run: &mut Run, masks: &[u32]) -> Result<u32, Stop>
    ensures { (cycles_of result ≡ (play_call automata_tables s.now masks.now (run_of run.old)).answer)
        × (run_of run.new ≡ (play_call automata_tables s.now masks.now (run_of run.old)).lent) }
{
    let shape = check(s)?;
    automata::lent::play(s, shape, run, masks)
}
