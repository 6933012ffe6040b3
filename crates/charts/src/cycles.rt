// A cycle: turn after turn, up to time's. Automata have functions of the same names, in place of one for both: each run is a struct of the C interface, and
// document 01 names the forms on each side (docs/DECISIONS.md, "Forms that document 01 names").
ghost use Rattle.std.specs.Prelude.{◌≡◌};
ghost use Rattle.records.specs.Refusal.{val};
ghost use Rattle.model.specs.Outcome.{settled};
ghost use Rattle.model.specs.Runs.{start as started, cycle as model-cycle};
ghost use Rattle.model.specs.ChartSet.{read_charts};
ghost use Rattle.model.specs.Charts.{charts as machine};
ghost use Rattle.chart_records.specs.Accepted.{Accepted};
ghost use Rattle.chart_runs.specs.RunOf.{run_of};
ghost use Rattle.charts.specs.TurnOf.{called_of};

use super::turns::turn;
use answers::{Answer, Stop};
use chart_records::Shape;
use chart_runs::{Run, start};
use chart_steps::tables::{fill_tables, no_tables};

// The answer of a call that is done or not, and the run after it.
#[derive(Clone, Copy)]
pub struct Called {
    pub answer: Result<(), Stop>,
    pub run: Run,
}

// A fresh run, whatever the one was that is lent.
pub fn fresh(s: &[u8], shape: Shape, lent: Run) -> Called
    requires { Accepted s.now shape }
    ensures { called_of result ≡ record { answer = val tt; lent = started (machine (read_charts s.now)) } }
{
    let run = start(s, shape);
    Called {
        answer: Ok(()),
        run,
    }
}

// The tables are made once; then the turns from the present position on, the first with the events given. Where one is refused or faults the run is the one
// that was given: all its turns, or none.
pub fn cycle_by_turns(s: &[u8], shape: Shape, run: Run, events: u32) -> Called
    requires { Accepted s.now shape }
    ensures { called_of result ≡ settled (run_of run) (model-cycle (machine (read_charts s.now)) events (run_of run)) }
{
    let mut tables = no_tables();
    fill_tables(s, shape, &mut tables);
    let mut present = run;
    let mut given = events;
    loop {
        let turned = turn(s, shape, &tables, present, given);
        let answer = turned.answer;
        let after = turned.run;
        match answer {
            Answer::Taken(_) | Answer::Idle => {
                present = after;
                given = 0;
            }
            Answer::Time => {
                return Called {
                    answer: Ok(()),
                    run: after,
                };
            }
            Answer::Fault(w) => {
                return Called {
                    answer: Err(Stop::Fault(w)),
                    run,
                };
            }
            Answer::Refused(w) => {
                return Called {
                    answer: Err(Stop::Refused(w)),
                    run,
                };
            }
        }
    }
}
