// A cycle of a chart set played with its lines.
ghost use Rattle.std.specs.Prelude.{◌≡◌, ◌≤◌};
ghost use Rattle.model.specs.Outcome.{settled};
ghost use Rattle.model.specs.Runs.{whole_cycle, trace, cycle as model-cycle};
ghost use Rattle.model.specs.ChartSet.{read_charts};
ghost use Rattle.model.specs.Charts.{charts as machine};
ghost use Rattle.model.specs.Replay.{trace_lines};
ghost use Rattle.chart_runs.specs.RunOf.{run_of};
ghost use Rattle.chart_steps.specs.Prepared.{Prepared};
ghost use Rattle.records.specs.Wrote.{Begins};
ghost use Rattle.replays.specs.Sets.{replayed_cycle_of};

use super::parts::tell;
use answers::{Answer, Stop};
use chart_records::Shape;
use chart_runs::Run;
use chart_steps::tables::Tables;
use charts::turns::turn;

// The length of the lines in the lent buffer (memory is fixed), how the cycle ended, and the run after it.
#[derive(Clone, Copy)]
pub struct ReplayedCycle {
    pub size: usize,
    pub answer: Result<(), Stop>,
    pub run: Run,
}

fn ended(size: usize, answer: Result<(), Stop>, run: Run) -> ReplayedCycle
    ensures { result ≡ record { size = size; answer = answer; run = run } }
{
    ReplayedCycle { size, answer, run }
}

// A cycle of an accepted set, turn after turn up to time's, the first with the events given, with a line for each chart's turn that is taken. Where one is
// refused or faults, the lines of the turns before are written and the run is the one that was given.
pub fn cycle_into(
    s: &[u8],
    shape: Shape,
    tables: &Tables,
    run: Run,
    events: u32,
    out: &mut [u8],
) -> ReplayedCycle
    requires { Prepared s.now shape tables.now }
    ensures begins { Begins out.old (trace_lines (read_charts s.now) (trace (machine (read_charts s.now)) (whole_cycle events) (run_of run))) out.new result.size }
    ensures size_bound { result.size ≤ 3856 }
    ensures result_value { replayed_cycle_of result ≡ settled (run_of run) (model-cycle (machine (read_charts s.now)) events (run_of run)) }
{
    let mut present = run;
    let mut given = events;
    let mut size: usize = 0;
    loop {
        let turned = turn(s, shape, tables, present, given);
        let answer = turned.answer;
        let after = turned.run;
        match answer {
            Answer::Taken(_) | Answer::Idle => {
                let states = after.states;
                let vars = after.variables;
                let chart = present.position - 1;
                size = tell(
                    out,
                    size,
                    present.cycles,
                    chart,
                    answer,
                    &states,
                    &vars,
                    shape.variables,
                );
                present = after;
                given = 0;
            }
            Answer::Time => return ended(size, Ok(()), after),
            Answer::Fault(w) => return ended(size, Err(Stop::Fault(w)), run),
            Answer::Refused(w) => return ended(size, Err(Stop::Refused(w)), run),
        }
    }
}
