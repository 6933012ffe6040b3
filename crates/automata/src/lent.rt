// A run that the caller lends, moved on in place, of an accepted table. Where a call is refused or faults the run is as it was. Beside the calls of charts, as
// turns are.
ghost use Rattle.std.specs.Prelude.{◌≡◌};
ghost use Rattle.records.specs.Refusal.{val};
ghost use Rattle.model.specs.Outcome.{settled};
ghost use Rattle.model.specs.Runs.{start as started, turn as model-turn, cycle as model-cycle};
ghost use Rattle.model.specs.AutomataTable.{read_automata};
ghost use Rattle.model.specs.Automata.{automata as machine};
ghost use Rattle.answers.specs.Answers.{answer_of, ending_of, cycles_of};
ghost use Rattle.machines.specs.Playing.{playing};
ghost use Rattle.automata_records.specs.Accepted.{Accepted};
ghost use Rattle.automata.specs.RunOf.{run_of};
ghost use Rattle.automata.specs.TurnOf.{called_of};

use super::cycles::{Called, cycle_by_turns};
use super::plays::play_in_place;
use super::runs::Run;
use super::turns::one_turn;
use answers::{Answer, Stop};
use automata_records::Shape;

// The fresh run, in place of any.
fn fresh(s: &[u8], shape: Shape, any: Run) -> Called
    requires { Accepted s.now shape }
    ensures { called_of result ≡ settled (run_of any) (val (tt, started (machine (read_automata s.now)))) }
{
    let run = super::runs::start(s, shape);
    Called {
        answer: Ok(()),
        run,
    }
}

// The lent run becomes a fresh one.
pub fn start(s: &[u8], shape: Shape, run: &mut Run) -> Result<(), Stop>
    requires { Accepted s.now shape }
    ensures { (ending_of result ≡ val tt) × (run_of run.new ≡ started (machine (read_automata s.now))) }
{
    let called = fresh(s, shape, *run);
    *run = called.run;
    called.answer
}

pub fn turn(s: &[u8], shape: Shape, run: &mut Run, events: u32) -> Answer
    requires { Accepted s.now shape }
    ensures { (answer_of result ≡ (settled (run_of run.old) (model-turn (machine (read_automata s.now)) events (run_of run.old))).answer)
        × (run_of run.new ≡ (settled (run_of run.old) (model-turn (machine (read_automata s.now)) events (run_of run.old))).lent) }
{
    let turned = one_turn(s, shape, *run, events);
    *run = turned.run;
    turned.answer
}

// All of a cycle's turns, or none.
pub fn cycle(s: &[u8], shape: Shape, run: &mut Run, events: u32) -> Result<(), Stop>
    requires { Accepted s.now shape }
    ensures { (ending_of result ≡ (settled (run_of run.old) (model-cycle (machine (read_automata s.now)) events (run_of run.old))).answer)
        × (run_of run.new ≡ (settled (run_of run.old) (model-cycle (machine (read_automata s.now)) events (run_of run.old))).lent) }
{
    let called = cycle_by_turns(s, shape, *run, events);
    *run = called.run;
    called.answer
}

// Many cycles, one for each mask.
pub fn play(s: &[u8], shape: Shape, run: &mut Run, masks: &[u32]) -> Result<u32, Stop>
    requires { Accepted s.now shape }
    ensures { (cycles_of result ≡ (settled (run_of run.old) (playing (machine (read_automata s.now)) masks.now (run_of run.old))).answer)
        × (run_of run.new ≡ (settled (run_of run.old) (playing (machine (read_automata s.now)) masks.now (run_of run.old))).lent) }
{
    let played = play_in_place(s, shape, *run, masks);
    *run = played.run;
    played.answer
}
