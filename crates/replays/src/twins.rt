// A cycle of automata played with its lines, as `sets` has it of charts. The two are one proof (proofs/Lines.antt), of any machine; a trait for one function
// would have to bring the run's fields, the tables and what holds of them beside the turn, and be longer than this loop.
ghost use Rattle.std.specs.Prelude.{◌≡◌, ◌≤◌};
ghost use Rattle.model.specs.Outcome.{settled};
ghost use Rattle.model.specs.Runs.{whole_cycle, trace, cycle as model-cycle};
ghost use Rattle.model.specs.AutomataTable.{read_automata};
ghost use Rattle.model.specs.Automata.{automata as machine};
ghost use Rattle.automata.specs.RunOf.{run_of};
ghost use Rattle.automata_steps.specs.Prepared.{Prepared};
ghost use Rattle.records.specs.Wrote.{Begins};
ghost use Rattle.lines.specs.Text.{trace_text};
ghost use Rattle.replays.specs.Twins.{replayed_cycle_of};

use super::parts::tell;
use answers::{Answer, Stop};
use automata::runs::Run;
use automata::turns::turn;
use automata_records::Shape;
use records::sizes::TableHeads;

// The length of the lines in the lent buffer (memory is fixed), how the cycle ended, and the run after it.
#[derive(Clone, Copy)]
pub struct ReplayedCycle {
    pub size: usize,
    pub answer: Result<(), Stop>,
    pub run: Run,
}

fn ended(size: usize, answer: Result<(), Stop>, run: Run) -> ReplayedCycle
    ensures { result ≡ record { size = size; answer = answer; run = run } }
{
    ReplayedCycle { size, answer, run }
}

// A cycle of an accepted table, with a line for each automaton's turn that is taken.
pub fn cycle_into(
    s: &[u8],
    shape: Shape,
    first: &TableHeads,
    next: &[u16],
    run: Run,
    events: u32,
    out: &mut [u8],
) -> ReplayedCycle
    requires { Prepared s.now shape first.now next.now }
    ensures begins { Begins out.old (trace_text (machine (read_automata s.now)) (trace (machine (read_automata s.now)) (whole_cycle events) (run_of run))) out.new result.size }
    ensures size_bound { result.size ≤ 3856 }
    ensures result_value { replayed_cycle_of result ≡ settled (run_of run) (model-cycle (machine (read_automata s.now)) events (run_of run)) }
{
    let mut present = run;
    let mut given = events;
    let mut size: usize = 0;
    loop {
        let turned = turn(s, shape, first, next, present, given);
        let answer = turned.answer;
        let after = turned.run;
        match answer {
            Answer::Taken(_) | Answer::Idle => {
                let locations = after.locations;
                let vars = after.variables;
                let automaton = present.position - 1;
                size = tell(
                    out,
                    size,
                    present.cycles,
                    automaton,
                    answer,
                    &locations,
                    &vars,
                    shape.variables,
                );
                present = after;
                given = 0;
            }
            Answer::Time => return ended(size, Ok(()), after),
            Answer::Fault(w) => return ended(size, Err(Stop::Fault(w)), run),
            Answer::Refused(w) => return ended(size, Err(Stop::Refused(w)), run),
        }
    }
}
