// The tables that turns read, made once for a set.
ghost use Rattle.std.specs.Prelude.{◌≡◌, ◌+◌, ◌<◌, drop, replicate};
ghost use Rattle.model.specs.Limits.{most_states, most_actions, most_priorities};
ghost use Rattle.model.specs.ChartSet.{read_charts};
ghost use Rattle.chart_records.specs.Accepted.{Accepted};
ghost use Rattle.chart_steps.specs.Tables.{HasRows, HasEnds, HasActions, slot_at, action_keys};
ghost use Rattle.chart_steps.specs.Prepared.{Prepared, no_tables};

use super::actions::key_of;
use super::transitions::source_of;
use chart_records::Shape;
use chart_records::fields::priority_of;
use records::sizes::{
    ACTION_KEYS, ACTIONS, ActionHeads, ActionLinks, Ends, PRIORITIES, Rows, STATES,
};

// Of each state its leaving transitions and where its row ends; of each key its first action, and of each action the next of its key. None is 65,535, and 256
// in a row: an Option would take twice the bytes. With a chain at the front less is cleared before it is filled (docs/SPEED.md, "Fixed tables").
#[derive(Drop)]
pub struct Tables {
    pub first: ActionHeads,
    pub rows: Rows,
    pub ends: Ends,
    pub next: ActionLinks,
}

// Of each state its leaving transitions, by priority, and the highest priority of each. The rows are of none before, which is 256: a number of two unlike
// bytes is put by plain stores, and one of two like bytes by one instruction repeated for each byte.
pub fn fill_rows(s: &[u8], shape: Shape, rows: &mut Rows, ends: &mut Ends)
    requires { Accepted s.now shape × (rows.old ≡ replicate most_states (replicate most_priorities 256)) × (ends.old ≡ replicate most_states 0) }
    ensures { HasRows (read_charts s.now) rows.new × HasEnds (read_charts s.now) rows.new ends.new }
{
    for t in (0..shape.transitions).rev() {
        let source = source_of(s, shape, t) as usize;
        let priority = priority_of(s, shape, t);
        let place = (priority - 1) as usize;
        rows[source][place] = t;
        ends[source] = ends[source].max(priority);
    }
}

// The transition at a place of a state's row. As in the other tables 65,535 is none, so that the choice made of it (steps.rt) stays one number.
pub fn slot_of(s: &[u8], shape: Shape, rows: &Rows, state: u16, place: usize) -> u16
    requires { Accepted s.now shape × HasRows (read_charts s.now) rows.now × (state < shape.states) × (place < most_priorities) }
    ensures { result ≡ slot_at (read_charts s.now) state (place + 1) }
{
    let i = state as usize;
    let t = rows[i][place];
    if t == 256 { 65535 } else { t }
}

// From the last action down, so that each finds the one behind it.
pub fn fill_actions(s: &[u8], shape: Shape, first: &mut ActionHeads, next: &mut ActionLinks)
    requires { Accepted s.now shape × (first.old ≡ replicate action_keys 65535) × (next.old ≡ replicate most_actions 65535) }
    ensures { HasActions s.now shape first.new next.new × (drop shape.actions next.new ≡ drop shape.actions next.old) }
{
    for a in (0..shape.actions).rev() {
        let key = key_of(s, shape, a) as usize;
        let i = a as usize;
        next[i] = first[key];
        first[key] = a;
    }
}

// Tables in which nothing is filled yet.
pub fn no_tables() -> Tables
    ensures { result ≡ no_tables }
{
    let empty = [256u16; PRIORITIES];
    Tables {
        first: [65535u16; ACTION_KEYS],
        rows: [empty; STATES],
        ends: [0u8; STATES],
        next: [65535u16; ACTIONS],
    }
}

// Where they stand: a function pays at its entry for the size of its locals, so that tables given back would be paid for twice.
pub fn fill_tables(s: &[u8], shape: Shape, tables: &mut Tables)
    requires { Accepted s.now shape × (tables.old ≡ no_tables) }
    ensures { Prepared s.now shape tables.new }
{
    fill_rows(s, shape, &mut tables.rows, &mut tables.ends);
    fill_actions(s, shape, &mut tables.first, &mut tables.next);
}
