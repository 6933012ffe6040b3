// A chart's turn, in place on the arrays of a run: a run by value is copied (docs/SPEED.md, "A run lent and given back"). Its steps answer one number, as
// deeds do in machines: events or a choice, 65,535 for no choice, or a fault. It stays in a register, where a Result or an Option would go through memory
// (docs/DECISIONS.md, "Inner answers are one number").
ghost use Rattle.std.specs.Prelude.{◌≡◌, true, ◌+◌, ◌-◌, ◌≤◌, ◌<◌};
ghost use Rattle.model.specs.Limits.{most_charts};
ghost use Rattle.expressions.specs.Answers.{truth_of};
ghost use Rattle.model.specs.Runs.{taken};
ghost use Rattle.model.specs.ChartSet.{read_charts};
ghost use Rattle.model.specs.Charts.{row, first_that, transition_holds, acted, due, waited, follow as followed, chart_step};
ghost use Rattle.std.proofs.Math.Option.{some};
ghost use Rattle.chart_records.specs.Accepted.{Accepted};
ghost use Rattle.machines.specs.Worlds.{Moment, onward, run_in, world_in, world_by, bare_world, IsCode};
ghost use Rattle.chart_steps.specs.StepOf.{choice_by, ChoiceOf, slot_holds, answer_by, moved_by, chart_turns};
ghost use Rattle.chart_steps.specs.Prepared.{Prepared};

use super::actions::wait_of;
use super::deeds::do_deeds;
use super::tables::{Tables, slot_of};
use super::transitions::{holds, source_of, target_of};
use chart_records::Shape;
use expressions::outcomes::Reason;
use machines::deeds::fault_code;
use records::sizes::{Ages, CROSSING_KEYS, EMPTY_KEY, EXIT_KEYS, Places, Variables, WAITING_KEYS};
use timings::{every_holds, ticks};

// A place of a row that names none does not hold.
fn slot_holds(
    s: &[u8],
    shape: Shape,
    vars: &Variables,
    events: u32,
    age: u32,
    t: u16,
) -> Result<bool, Reason>
    requires { Accepted s.now shape × ((t ≡ 65535 → ⊥) → t < shape.transitions) }
    ensures { truth_of result ≡ slot_holds (transition_holds (read_charts s.now) (bare_world vars.now events) age) t }
{
    if t == 65535 {
        Ok(false)
    } else {
        holds(s, shape, vars, events, age, t)
    }
}

// The first transition that holds of those that leave the state, by priority, or 65,535. A state that the set does not have leaves by none.
fn first_that(
    s: &[u8],
    shape: Shape,
    tables: &Tables,
    vars: &Variables,
    events: u32,
    age: u32,
    state: u16,
) -> u64
    requires { Prepared s.now shape tables.now }
    ensures { (choice_by result ≡ first_that (transition_holds (read_charts s.now) (bare_world vars.now events) age) (row (read_charts s.now) state)) × ChoiceOf shape.transitions result }
{
    if shape.states <= state {
        return 65535;
    }
    let i = state as usize;
    let end = tables.ends[i] as usize;
    for j in 0..end {
        let t = slot_of(s, shape, &tables.rows, state, j);
        match slot_holds(s, shape, vars, events, age, t) {
            Err(w) => return fault_code(w),
            Ok(true) => return t as u64,
            Ok(false) => {}
        }
    }
    65535
}

// Exit actions of the source, the transition's, entry actions of the target.
fn do_actions(
    s: &[u8],
    shape: Shape,
    tables: &Tables,
    t: u16,
    vars: &mut Variables,
    events: u32,
) -> u64
    requires { Prepared s.now shape tables.now × (t < shape.transitions) }
    ensures { ((m : Moment) → world_by result vars.new m ≡ acted (read_charts s.now) t (world_in vars.old events m)) × IsCode result }
{
    let leaving = EXIT_KEYS + source_of(s, shape, t);
    let crossing = CROSSING_KEYS + t;
    let entering = target_of(s, shape, t);
    do_deeds(
        s,
        shape,
        &tables.first,
        &tables.next,
        leaving,
        crossing,
        entering,
        vars,
        events,
    )
}

// A transition that holds is taken: the state that is entered has the age 0.
fn follow(
    s: &[u8],
    shape: Shape,
    tables: &Tables,
    chart: u16,
    t: u16,
    states: &mut Places,
    ages: &mut Ages,
    vars: &mut Variables,
    events: u32,
) -> u64
    requires { Prepared s.now shape tables.now × (chart < most_charts) × (t < shape.transitions) }
    ensures { ((m : Moment) → moved_by result (taken t) states.new ages.new vars.new m ≡ followed (read_charts s.now) chart (run_in states.old ages.old vars.old events m) (some t)) × IsCode result }
{
    let after = do_actions(s, shape, tables, t, vars, events);
    if 4294967295 < after {
        return after;
    }
    let i = chart as usize;
    states[i] = target_of(s, shape, t);
    ages[i] = 0;
    after
}

// Whether a state's waiting actions are due; they have the milliseconds of the first. A state that the set does not have has none.
fn is_due(s: &[u8], shape: Shape, tables: &Tables, state: u16, age: u32) -> bool
    requires { Prepared s.now shape tables.now }
    ensures { (result ≡ due (read_charts s.now) state age) × (result ≡ true → state < shape.states) }
{
    if shape.states <= state {
        return false;
    }
    let a = tables.first[(WAITING_KEYS + state) as usize];
    if a == 65535 {
        return false;
    }
    every_holds(ticks(wait_of(s, shape, a)), age)
}

// None is taken: the waiting actions of the state, where they are due.
fn wait(
    s: &[u8],
    shape: Shape,
    tables: &Tables,
    state: u16,
    age: u32,
    vars: &mut Variables,
    events: u32,
) -> u64
    requires { Prepared s.now shape tables.now }
    ensures { ((m : Moment) → world_by result vars.new m ≡ waited (read_charts s.now) state age (world_in vars.old events m)) × IsCode result }
{
    if is_due(s, shape, tables, state, age) {
        do_deeds(
            s,
            shape,
            &tables.first,
            &tables.next,
            WAITING_KEYS + state,
            EMPTY_KEY,
            EMPTY_KEY,
            vars,
            events,
        )
    } else {
        events as u64
    }
}

// In place: the events after the turn, and which transition was taken, if one was. After a fault the variables are as the deeds before it left them.
fn step_in_place(
    s: &[u8],
    shape: Shape,
    tables: &Tables,
    chart: u16,
    states: &mut Places,
    ages: &mut Ages,
    vars: &mut Variables,
    events: u32,
    chosen: &mut Option<u16>,
) -> u64
    requires { Prepared s.now shape tables.now × (chart < shape.charts) }
    ensures { ((m : Moment) → moved_by result (answer_by chosen.new) states.new ages.new vars.new m ≡ chart_step (read_charts s.now) chart (run_in states.old ages.old vars.old events m)) × IsCode result }
{
    let i = chart as usize;
    let state = states[i];
    let age = ages[i];
    let t = first_that(s, shape, tables, vars, events, age, state);
    if 4294967295 < t {
        return t;
    }
    if t == 65535 {
        *chosen = None;
        return wait(s, shape, tables, state, age, vars, events);
    }
    *chosen = Some(t as u16);
    follow(
        s, shape, tables, chart, t as u16, states, ages, vars, events,
    )
}

// The turns of the charts from one up to another, in place: the events after them, and what the last of them chose. One turn goes by it too, so that a step
// stands at one place of the code (docs/DECISIONS.md, "One loop for turns").
pub fn turns_in_place(
    s: &[u8],
    shape: Shape,
    tables: &Tables,
    from: u16,
    to: u16,
    states: &mut Places,
    ages: &mut Ages,
    vars: &mut Variables,
    events: u32,
    chosen: &mut Option<u16>,
) -> u64
    requires { Prepared s.now shape tables.now × (from ≤ to) × (to ≤ shape.charts) }
    ensures { ((m : Moment) → moved_by result (answer_by chosen.new) states.new ages.new vars.new (onward (to - from) m)
        ≡ chart_turns (read_charts s.now) from (to - from) (answer_by chosen.old, run_in states.old ages.old vars.old events m)) × IsCode result }
{
    let mut present = events;
    for chart in from..to {
        let after = step_in_place(s, shape, tables, chart, states, ages, vars, present, chosen);
        if 4294967295 < after {
            return after;
        }
        present = after as u32;
    }
    present as u64
}
