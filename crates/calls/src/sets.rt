// Calls on chart sets.
ghost use Rattle.std.specs.Prelude.{◌≡◌};
ghost use Rattle.model.specs.Calls.{chart_sets, start_call, turn_call, cycle_call};
ghost use Rattle.model.specs.Translation.{translate as translation};
ghost use Rattle.model.specs.PathBack.{path_back};
ghost use Rattle.answers.specs.Answers.{answer_of, ending_of, cycles_of};
ghost use Rattle.machines.specs.Playing.{play_call};
ghost use Rattle.chart_runs.specs.RunOf.{run_of};
ghost use Rattle.translation.specs.Answer.{translated_of};
ghost use Rattle.paths.specs.LedOf.{led_of};

use answers::{Answer, Stop};
use chart_files::check;
use chart_runs::Run;
use records::refusals::Refusal;

// The lent run becomes a fresh one.
pub fn start(s: &[u8], run: &mut Run) -> Result<(), Stop>
    ensures { (ending_of result ≡ (start_call chart_sets s.now (run_of run.old)).answer)
        × (run_of run.new ≡ (start_call chart_sets s.now (run_of run.old)).lent) }
{
    let shape = check(s)?;
    charts::lent::start(s, shape, run)
}

pub fn turn(s: &[u8], run: &mut Run, events: u32) -> Answer
    ensures { (answer_of result ≡ (turn_call chart_sets s.now events (run_of run.old)).answer)
        × (run_of run.new ≡ (turn_call chart_sets s.now events (run_of run.old)).lent) }
{
    match check(s) {
        Ok(shape) => charts::lent::turn(s, shape, run, events),
        Err(w) => Answer::Refused(w),
    }
}

pub fn cycle(s: &[u8], run: &mut Run, events: u32) -> Result<(), Stop>
    ensures { (ending_of result ≡ (cycle_call chart_sets s.now events (run_of run.old)).answer)
        × (run_of run.new ≡ (cycle_call chart_sets s.now events (run_of run.old)).lent) }
{
    let shape = check(s)?;
    charts::lent::cycle(s, shape, run, events)
}

// Many cycles, the file checked once.
pub fn play(s: &[u8], run: &mut Run, masks: &[u32]) -> Result<u32, Stop>
    ensures { (cycles_of result ≡ (play_call chart_sets s.now masks.now (run_of run.old)).answer)
        × (run_of run.new ≡ (play_call chart_sets s.now masks.now (run_of run.old)).lent) }
{
    let shape = check(s)?;
    charts::lent::play(s, shape, run, masks)
}

// A set translated into a lent buffer: what is refused keeps its contents, and bytes beyond the result are kept.
pub fn translate(s: &[u8], out: &mut [u8]) -> Result<usize, Refusal>
    ensures { translated_of result out.new ≡ translation s.now out.old }
{
    let shape = check(s)?;
    translation::translate(s, shape, out)
}

// A path of the twin led back: how many rows were written, from the first word on, or why none were.
pub fn path_back(s: &[u8], path: &[u16], rows: &mut [u32]) -> Result<usize, Refusal>
    ensures { led_of result rows.new ≡ path_back s.now path.now rows.old }
{
    let shape = check(s)?;
    paths::path_back(s, shape, path, rows)
}
