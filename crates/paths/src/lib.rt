// A path of the twin, led back to the transitions that it came from.
#![tactic(auto)]

ghost use Rattle.std.specs.Prelude.{◌≡◌, true, cond, [], ◌∷◌, ℕ, ◌+◌, ◌*◌, ◌≤◌, ◌<◌, ltb, length};
ghost use Rattle.std.proofs.lemmas.List.Edits.{sets};
ghost use Rattle.model.specs.Limits.{most_states};
ghost use Rattle.model.specs.ChartSet.{read_charts};
ghost use Rattle.model.specs.Translation.{idle_origins};
ghost use Rattle.model.specs.PathBack.{walk_start, edge_fits, step_fits, walked as walkedOn, led_back, row_words};
ghost use Rattle.chart_records.specs.Accepted.{Accepted};
ghost use Rattle.chart_steps.specs.Tables.{HasFirsts};
ghost use Rattle.paths.specs.Along.{rows_along};
ghost use Rattle.paths.specs.LedOf.{walk_in, HasIdling, IsEdge, HasEdges, next_position, next_cycles, count_of, counted, Writable, step_words, led_of, led};

use chart_records::Shape;
use chart_records::fields::{home_of, source_of, target_of};
use chart_steps::tables::fill_actions;
use records::refusals::Refusal;
use records::sizes::{
    ACTION_KEYS, ACTIONS, ActionHeads, EDGES, MOST_CYCLES, Places, STATES, WAITING_KEYS,
};

// The most idle edges: two for each state.
const IDLE_EDGES: usize = 2 * STATES;

// Of each idle edge, counted from the first, its state; and how many there are: room for the most, as there is no heap.
#[derive(Clone, Copy)]
pub struct Idling {
    pub states: [u16; IDLE_EDGES],
    pub count: u16,
}

// An edge of the twin: one of a transition, or an idle edge of a state.
#[derive(Clone, Copy)]
pub struct Edge {
    pub automaton: u8,
    pub source: u16,
    pub target: u16,
}

// The edges of the twin, made once for a path, and how many there are: room for the most, as there is no heap.
#[derive(Clone, Copy)]
pub struct EdgeTable {
    pub edges: [Edge; EDGES],
    pub count: u16,
}

// Where in its cycles a walk is: the next step's position, and how many cycles are done. The automata's locations stand apart: they are named by number and so
// lie in memory, and these two stay in registers (docs/SPEED.md, "A path by numbers").
#[derive(Clone, Copy)]
pub struct Walk {
    pub position: u32,
    pub cycles: u32,
}

// A state that has waiting actions (a first one: 65535 is none) idles by two edges, the due one first; any other by one.
fn idle_edges(s: &[u8], shape: Shape, first: &ActionHeads, state: u16) -> u16
    requires { Accepted s.now shape × HasFirsts s.now shape first.now × (state < most_states) }
    ensures { result ≡ length (idle_origins (read_charts s.now) state) }
{
    let key = (WAITING_KEYS + state) as usize;
    if first[key] == 65535 { 1 } else { 2 }
}

// Each state is put twice: where it idles by one edge, the next state takes the second place. Of a set's tables the actions' alone are made, as no
// row is read.
fn idling_of(s: &[u8], shape: Shape) -> Idling
    requires { Accepted s.now shape }
    ensures { HasIdling s.now shape result }
{
    let mut first = [65535u16; ACTION_KEYS];
    let mut next = [65535u16; ACTIONS];
    fill_actions(s, shape, &mut first, &mut next);
    let mut states = [0u16; IDLE_EDGES];
    let mut count: u16 = 0;
    for state in 0..shape.states {
        let i = count as usize;
        states[i] = state;
        states[i + 1] = state;
        count += idle_edges(s, shape, &first, state);
    }
    Idling { states, count }
}

// Edges are numbered as the transitions, then the idle edges by state.
fn edge_of(s: &[u8], shape: Shape, idling: &Idling, e: u16) -> Edge
    requires accepted { Accepted s.now shape × HasIdling s.now shape idling.now }
    requires e_bound { e < shape.transitions + idling.now.count }
    ensures { IsEdge s.now shape.charts e result }
{
    if e < shape.transitions {
        let source = source_of(s, shape, e);
        let target = target_of(s, shape, e);
        let automaton = home_of(s, shape, source);
        Edge {
            automaton,
            source,
            target,
        }
    } else {
        let i = (e - shape.transitions) as usize;
        let state = idling.states[i];
        let automaton = home_of(s, shape, state);
        Edge {
            automaton,
            source: state,
            target: state,
        }
    }
}

fn edges_of(s: &[u8], shape: Shape) -> EdgeTable
    requires { Accepted s.now shape }
    ensures { HasEdges s.now shape result }
{
    let idling = idling_of(s, shape);
    let count = shape.transitions + idling.count;
    let none = Edge {
        automaton: 0,
        source: 0,
        target: 0,
    };
    let mut edges = [none; EDGES];
    for e in 0..count {
        edges[e as usize] = edge_of(s, shape, &idling, e);
    }
    EdgeTable { edges, count }
}

// A path starts where a run does, at position 1 of cycle 0.
fn start_locations(s: &[u8], shape: Shape) -> Places
    requires { Accepted s.now shape }
    ensures { walk_in shape.charts result (record { position = 1; cycles = 0 }) ≡ walk_start (read_charts s.now) }
{
    let run = chart_runs::start(s, shape);
    run.states
}

fn edge_fits(
    s: &[u8],
    shape: Shape,
    table: &EdgeTable,
    e: u16,
    locations: &Places,
    walk: Walk,
) -> bool
    requires { Accepted s.now shape × HasEdges s.now shape table.now }
    ensures { result ≡ edge_fits (read_charts s.now) e (walk_in shape.charts locations.now walk) }
{
    if table.count <= e {
        return false;
    }
    let edge = table.edges[e as usize];
    let a = edge.automaton as usize;
    if (edge.automaton as u32) + 1 == walk.position {
        edge.source == locations[a]
    } else {
        false
    }
}

// 65535 is time: so the C interface has a path's words.
fn step_fits(
    s: &[u8],
    shape: Shape,
    table: &EdgeTable,
    e: u16,
    locations: &Places,
    walk: Walk,
) -> bool
    requires { Accepted s.now shape × HasEdges s.now shape table.now }
    ensures { result ≡ step_fits (read_charts s.now) e (walk_in shape.charts locations.now walk) }
{
    if MOST_CYCLES <= walk.cycles {
        return false;
    }
    if e == 65535 {
        walk.position == (shape.charts as u32) + 1
    } else {
        edge_fits(s, shape, table, e, locations, walk)
    }
}

fn next_position(e: u16, position: u32) -> u32
    requires { position ≤ 1_000_000 }
    ensures { result ≡ next_position e position }
{
    if e == 65535 { 1 } else { position + 1 }
}

fn next_cycles(e: u16, cycles: u32) -> u32
    requires { cycles ≤ 1_000_000 }
    ensures { result ≡ next_cycles e cycles }
{
    if e == 65535 { cycles + 1 } else { cycles }
}

// A step that fits leads an automaton to its edge's target; time moves none.
fn follow_step(
    s: &[u8],
    shape: Shape,
    table: &EdgeTable,
    e: u16,
    locations: &mut Places,
    walk: &mut Walk,
)
    requires accepted { Accepted s.now shape × HasEdges s.now shape table.now }
    requires fits { step_fits (read_charts s.now) e (walk_in shape.charts locations.old walk.old) ≡ true }
    ensures { walk_in shape.charts locations.new walk.new ≡ walkedOn (read_charts s.now) e (walk_in shape.charts locations.old walk.old) }
{
    if e == 65535 {
        walk.position = 1;
        walk.cycles += 1;
        return;
    }
    let edge = table.edges[e as usize];
    locations[edge.automaton as usize] = edge.target;
    walk.position += 1;
}

// A transition's edge has a row; an idle edge and time have none.
fn rows_of_step(shape: Shape, e: u16) -> usize
    ensures { result ≡ cond (ltb e shape.transitions) 1 0 }
{
    if e < shape.transitions { 1 } else { 0 }
}

// How many rows a path gives, if its steps fit.
fn count_rows(s: &[u8], shape: Shape, table: &EdgeTable, path: &[u16]) -> Option<usize>
    requires { Accepted s.now shape × HasEdges s.now shape table.now }
    ensures { count_of result ≡ counted (led_back (read_charts s.now) path.now (walk_start (read_charts s.now))) }
{
    let mut locations = start_locations(s, shape);
    let mut walk = Walk {
        position: 1,
        cycles: 0,
    };
    let mut rows: usize = 0;
    for &e in path {
        if !step_fits(s, shape, table, e, &locations, walk) {
            return None;
        }
        rows += rows_of_step(shape, e);
        follow_step(s, shape, table, e, &mut locations, &mut walk);
    }
    Some(rows)
}

// Row k: cycle, chart, transition.
fn put_row(rows: &mut [u32], k: usize, cycle: u32, chart: u32, transition: u16)
    requires { 3 * k + 3 ≤ length rows.old }
    ensures { rows.new ≡ sets rows.old (3 * k) (cycle ∷ chart ∷ transition ∷ []) }
{
    rows[3 * k] = cycle;
    rows[3 * k + 1] = chart;
    rows[3 * k + 2] = transition as u32;
}

// The row of a step, as row k, if it has one.
fn put_step(shape: Shape, e: u16, position: u32, cycles: u32, rows: &mut [u32], k: usize)
    requires { e < shape.transitions → (3 * k + 3 ≤ length rows.old) × (1 ≤ position) }
    ensures { rows.new ≡ sets rows.old (3 * k) (step_words shape.transitions e position cycles) }
{
    if shape.transitions <= e {
        return;
    }
    put_row(rows, k, cycles, position - 1, e);
}

// The rows of a path that is known to fit, and to have room: where the automata stand no longer matters.
fn put_rows(s: &[u8], shape: Shape, path: &[u16], rows: &mut [u32])
    requires accepted { Accepted s.now shape }
    requires writable { Writable s.now path.now rows.old }
    ensures { rows.new ≡ sets rows.old 0 (row_words (rows_along (read_charts s.now) path.now (walk_start (read_charts s.now)))) }
{
    let mut position: u32 = 1;
    let mut cycles: u32 = 0;
    let mut k: usize = 0;
    for &e in path {
        put_step(shape, e, position, cycles, rows, k);
        k += rows_of_step(shape, e);
        position = next_position(e, position);
        cycles = next_cycles(e, cycles);
    }
}

// How many rows a path of an accepted set has: nothing is written unless all its steps fit and its rows have room.
pub fn path_back(s: &[u8], shape: Shape, path: &[u16], rows: &mut [u32]) -> Result<usize, Refusal>
    requires { Accepted s.now shape }
    ensures { led_of result rows.new ≡ led (read_charts s.now) path.now rows.old }
{
    let table = edges_of(s, shape);
    let n = count_rows(s, shape, &table, path).ok_or(Refusal::BrokenPath)?;
    if rows.len() / 3 < n {
        return Err(Refusal::ShortRows);
    }
    put_rows(s, shape, path, rows);
    Ok(n)
}
