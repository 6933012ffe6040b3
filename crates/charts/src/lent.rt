// A run that the caller lends, moved on in place: what is done to it is done by value, and it is given back at the end. Where a call is refused or faults the
// run is as it was. Automata have functions of the same names (see cycles.rt).
ghost use Rattle.std.specs.Prelude.{◌≡◌};
ghost use Rattle.records.specs.Refusal.{val};
ghost use Rattle.model.specs.Outcome.{settled};
ghost use Rattle.model.specs.Runs.{start as started, turn as model-turn, cycle as model-cycle};
ghost use Rattle.model.specs.ChartSet.{read_charts};
ghost use Rattle.model.specs.Charts.{charts as machine};
ghost use Rattle.answers.specs.Answers.{answer_of, ending_of, cycles_of};
ghost use Rattle.machines.specs.Playing.{playing};
ghost use Rattle.chart_records.specs.Accepted.{Accepted};
ghost use Rattle.chart_runs.specs.RunOf.{run_of};

use super::cycles::{cycle_by_turns, fresh};
use super::plays::play_in_place;
use super::turns::one_turn;
use answers::{Answer, Stop};
use chart_records::Shape;
use chart_runs::Run;

// The lent run becomes a fresh one.
pub fn start(s: &[u8], shape: Shape, run: &mut Run) -> Result<(), Stop>
    requires { Accepted s.now shape }
    ensures { (ending_of result ≡ val tt) × (run_of run.new ≡ started (machine (read_charts s.now))) }
{
    let called = fresh(s, shape, *run);
    *run = called.run;
    called.answer
}

// A turn.
pub fn turn(s: &[u8], shape: Shape, run: &mut Run, events: u32) -> Answer
    requires { Accepted s.now shape }
    ensures { (answer_of result ≡ (settled (run_of run.old) (model-turn (machine (read_charts s.now)) events (run_of run.old))).answer)
        × (run_of run.new ≡ (settled (run_of run.old) (model-turn (machine (read_charts s.now)) events (run_of run.old))).lent) }
{
    let turned = one_turn(s, shape, *run, events);
    *run = turned.run;
    turned.answer
}

// A cycle: all its turns, or none.
pub fn cycle(s: &[u8], shape: Shape, run: &mut Run, events: u32) -> Result<(), Stop>
    requires { Accepted s.now shape }
    ensures { (ending_of result ≡ (settled (run_of run.old) (model-cycle (machine (read_charts s.now)) events (run_of run.old))).answer)
        × (run_of run.new ≡ (settled (run_of run.old) (model-cycle (machine (read_charts s.now)) events (run_of run.old))).lent) }
{
    let called = cycle_by_turns(s, shape, *run, events);
    *run = called.run;
    called.answer
}

// Many cycles, one for each mask, until one is refused or faults.
pub fn play(s: &[u8], shape: Shape, run: &mut Run, masks: &[u32]) -> Result<u32, Stop>
    requires { Accepted s.now shape }
    ensures { (cycles_of result ≡ (settled (run_of run.old) (playing (machine (read_charts s.now)) masks.now (run_of run.old))).answer)
        × (run_of run.new ≡ (settled (run_of run.old) (playing (machine (read_charts s.now)) masks.now (run_of run.old))).lent) }
{
    let played = play_in_place(s, shape, *run, masks);
    *run = played.run;
    played.answer
}
