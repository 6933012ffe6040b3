// A turn by value: a run goes in, the answer and the run after it come back. Automata have functions of the same names (see cycles.rt).
ghost use Rattle.std.specs.Prelude.{◌≡◌, ◌+◌, ◌≤◌, ◌<◌};
ghost use Rattle.records.specs.Refusal.{val};
ghost use Rattle.model.specs.Outcome.{settled};
ghost use Rattle.model.specs.Runs.{stepped, turn as model-turn};
ghost use Rattle.model.specs.ChartSet.{read_charts};
ghost use Rattle.model.specs.Charts.{charts as machine};
ghost use Rattle.answers.specs.Answers.{answer_of};
ghost use Rattle.machines.specs.Worlds.{moment};
ghost use Rattle.chart_records.specs.Accepted.{Accepted};
ghost use Rattle.chart_runs.specs.RunOf.{run_of};
ghost use Rattle.chart_steps.specs.StepOf.{answer_by, moved_by};
ghost use Rattle.chart_steps.specs.Prepared.{Prepared};
ghost use Rattle.charts.specs.TurnOf.{turn_of, Ready};

use answers::Answer;
use chart_records::Shape;
use chart_runs::{Run, before_turn, give, time_passed};
use chart_steps::steps::turns_in_place;
use chart_steps::tables::{Tables, fill_tables, no_tables};
use machines::deeds::done_by;
use records::sizes::{Ages, Places, Variables};

// A turn's answer, and the run after it.
#[derive(Clone, Copy)]
pub struct Turned {
    pub answer: Answer,
    pub run: Run,
}

fn answer_by(chosen: Option<u16>) -> Answer
    ensures { answer_of result ≡ val (answer_by chosen) }
{
    match chosen {
        None => Answer::Idle,
        Some(t) => Answer::Taken(t),
    }
}

// A chart's turn from the places after it, and the next position. Where it faults the run is the one that was given.
fn chart_turned(
    lent: Run,
    states: Places,
    ages: Ages,
    variables: Variables,
    after: u64,
    chosen: Option<u16>,
    position: u32,
    cycles: u32,
) -> Turned
    requires { position < 4_294_967_295 }
    ensures { turn_of result ≡ settled (run_of lent) (moved_by after (answer_by chosen) states ages variables (moment (position + 1) cycles)) }
{
    match done_by(after) {
        Err(w) => Turned {
            answer: Answer::Fault(w),
            run: lent,
        },
        Ok(events) => Turned {
            answer: answer_by(chosen),
            run: Run {
                states,
                ages,
                variables,
                events,
                position: position + 1,
                cycles,
            },
        },
    }
}

// A chart's turn: in place, on a copy of the run's places.
fn chart_turn(s: &[u8], shape: Shape, tables: &Tables, lent: Run, run: Run) -> Turned
    requires prepared { Prepared s.now shape tables.now }
    requires ready { Ready shape.charts (run_of run) }
    requires position_le_charts { run.position ≤ shape.charts }
    ensures { turn_of result ≡ settled (run_of lent) (stepped (machine (read_charts s.now)) (run_of run)) }
{
    let mut states = run.states;
    let mut ages = run.ages;
    let mut variables = run.variables;
    let mut chosen = None;
    let chart = (run.position - 1) as u16;
    let after = turns_in_place(
        s,
        shape,
        tables,
        chart,
        chart + 1,
        &mut states,
        &mut ages,
        &mut variables,
        run.events,
        &mut chosen,
    );
    chart_turned(
        lent,
        states,
        ages,
        variables,
        after,
        chosen,
        run.position,
        run.cycles,
    )
}

// The turn of the present position: a chart's, or time's.
fn turn_taken(s: &[u8], shape: Shape, tables: &Tables, lent: Run, run: Run) -> Turned
    requires prepared { Prepared s.now shape tables.now }
    requires ready { Ready shape.charts (run_of run) }
    ensures { turn_of result ≡ settled (run_of lent) (stepped (machine (read_charts s.now)) (run_of run)) }
{
    if run.position <= (shape.charts as u32) {
        chart_turn(s, shape, tables, lent, run)
    } else {
        let run = time_passed(shape.charts, run);
        Turned {
            answer: Answer::Time,
            run,
        }
    }
}

// A turn of an accepted set: what is checked before it, then the turn. Where it is refused or faults the run is the one that was given.
pub fn turn(s: &[u8], shape: Shape, tables: &Tables, run: Run, events: u32) -> Turned
    requires { Prepared s.now shape tables.now }
    ensures { turn_of result ≡ settled (run_of run) (model-turn (machine (read_charts s.now)) events (run_of run)) }
{
    match before_turn(s, shape, run, events) {
        Err(w) => Turned {
            answer: Answer::Refused(w),
            run,
        },
        Ok(()) => {
            let given = give(run, events);
            turn_taken(s, shape, tables, run, given)
        }
    }
}

// One turn, with the tables made for it.
pub fn one_turn(s: &[u8], shape: Shape, run: Run, events: u32) -> Turned
    requires { Accepted s.now shape }
    ensures { turn_of result ≡ settled (run_of run) (model-turn (machine (read_charts s.now)) events (run_of run)) }
{
    let mut tables = no_tables();
    fill_tables(s, shape, &mut tables);
    turn(s, shape, &tables, run, events)
}
