// Literals by edge: of each leaving transition of higher priority, ascending, one that must not hold; then the edge's own. An idle edge has the
// must-nots of all; where its state waits, a due or not-due edge then reads the clock.
ghost use Rattle.std.specs.Prelude.{◌≡◌, ◌∷◌, ◌++◌, map, false, ◌+◌, ◌≤◌, ◌<◌, ◌^◌};
ghost use Rattle.std.proofs.Math.Option.{none};
ghost use Rattle.prelude.specs.Lists.{gather, upto};
ghost use Rattle.records.specs.Bytes.{bytes2};
ghost use Rattle.model.specs.ChartSet.{read_charts, transition};
ghost use Rattle.model.specs.AutomataTable.{clock, write_literal_trigger, write_guard};
ghost use Rattle.model.specs.Translation.{from_transition, transition_count, state_count, idle_origins, first_idle, literal_trigger_of, literal, tried_before, must_nots};
ghost use Rattle.chart_records.specs.Parts.{guard_for};
ghost use Rattle.chart_records.specs.Accepted.{Accepted};
ghost use Rattle.chart_steps.specs.Tables.{HasRows, HasEnds, named};
ghost use Rattle.twin_records.specs.Tables.{HasClocks, HasWaiting};
ghost use Rattle.twin_records.specs.Texts.{record_text, literal_texts, literals_text, Puts};

use chart_records::Shape;
use chart_records::fields::Trigger;
use chart_steps::tables::slot_of;
use chart_steps::transitions::source_of;
use records::sizes::{Ends, Rows, TRANSITIONS};
use twin_records::clocks::{ClockNumbers, count_of};
use twin_records::fields::{guard_of, priority_of, trigger_of};
use twin_records::writing::{literal_bytes, put_record};

// As the records of document 01 have a guard: 65535 is none.
fn guard_number(guard: Option<u16>) -> u16
    ensures { bytes2 result ≡ write_guard (guard_for guard) }
{
    guard.unwrap_or(65535)
}

// The sign is 1 where transition t must hold, 2 where it must not.
fn literal_record(
    s: &[u8],
    shape: Shape,
    clocks: &[u16; TRANSITIONS],
    sign: u8,
    edge: u16,
    t: u16,
) -> [u8; 16]
    requires { Accepted s.now shape × HasClocks (read_charts s.now) clocks.now × (t < shape.transitions) }
    ensures { result ≡ record_text 36 (sign ∷ bytes2 edge ++ write_literal_trigger (literal_trigger_of (read_charts s.now) t (transition (read_charts s.now) t).trigger) ++ write_guard (transition (read_charts s.now) t).guard) }
{
    let guard = guard_number(guard_of(s, shape, t));
    let clock = clocks[t as usize];
    match trigger_of(s, shape, t) {
        Trigger::Always => literal_bytes(sign, edge, 0, 0, 0, guard),
        Trigger::Event(e) => literal_bytes(sign, edge, 1, e, 0, guard),
        Trigger::After(_) | Trigger::Every(_) => literal_bytes(sign, edge, 2, 0, clock, guard),
    }
}

// A place of a row that names none has no literal.
fn put_negation(
    s: &[u8],
    shape: Shape,
    clocks: &[u16; TRANSITIONS],
    out: &mut [u8],
    at: usize,
    edge: u16,
    t: u16,
) -> usize
    requires { Accepted s.now shape × HasClocks (read_charts s.now) clocks.now × ((t ≡ 65535 → ⊥) → t < shape.transitions) × (at < 2 ^ 62) }
    ensures { Puts out.old at (literal_texts edge (map (literal (read_charts s.now) false) (named t))) out.new result 16 }
{
    if t == 65535 {
        at
    } else {
        let bytes = literal_record(s, shape, clocks, 2, edge, t);
        put_record(out, at, bytes)
    }
}

// The must-nots of the transitions that leave a state, for the first `count` priorities.
fn put_negations(
    s: &[u8],
    shape: Shape,
    clocks: &[u16; TRANSITIONS],
    rows: &Rows,
    out: &mut [u8],
    at: usize,
    edge: u16,
    state: u16,
    count: usize,
) -> usize
    requires { Accepted s.now shape × HasClocks (read_charts s.now) clocks.now × HasRows (read_charts s.now) rows.now × (state < shape.states) × (count ≤ 16) × (at < 2 ^ 61) }
    ensures { Puts out.old at (literal_texts edge (map (literal (read_charts s.now) false) (tried_before (read_charts s.now) state (count + 1)))) out.new result (2 ^ 20) }
{
    let mut next = at;
    for j in 0..count {
        let t = slot_of(s, shape, rows, state, j);
        next = put_negation(s, shape, clocks, out, next, edge, t);
    }
    next
}

// Negations come first.
fn put_literals_of(
    s: &[u8],
    shape: Shape,
    clocks: &[u16; TRANSITIONS],
    rows: &Rows,
    out: &mut [u8],
    at: usize,
    t: u16,
) -> usize
    requires { Accepted s.now shape × HasClocks (read_charts s.now) clocks.now × HasRows (read_charts s.now) rows.now × (t < shape.transitions) × (at < 2 ^ 61) }
    ensures { Puts out.old at (literals_text (read_charts s.now) (from_transition t)) out.new result (2 ^ 22) }
{
    let higher = (priority_of(s, shape, t) - 1) as usize;
    let source = source_of(s, shape, t);
    let own = put_negations(s, shape, clocks, rows, out, at, t, source, higher);
    let bytes = literal_record(s, shape, clocks, 1, t, t);
    put_record(out, own, bytes)
}

pub fn put_literals(
    s: &[u8],
    shape: Shape,
    clocks: &[u16; TRANSITIONS],
    rows: &Rows,
    out: &mut [u8],
    at: usize,
) -> usize
    requires { Accepted s.now shape × HasClocks (read_charts s.now) clocks.now × HasRows (read_charts s.now) rows.now × (at < 2 ^ 60) }
    ensures { Puts out.old at (gather (λ t. literals_text (read_charts s.now) (from_transition t)) (upto (transition_count (read_charts s.now)))) out.new result (2 ^ 40) }
{
    let mut next = at;
    for t in 0..shape.transitions {
        next = put_literals_of(s, shape, clocks, rows, out, next, t);
    }
    next
}

// The must-nots of all transitions that leave a state.
fn put_must_nots(
    s: &[u8],
    shape: Shape,
    clocks: &[u16; TRANSITIONS],
    rows: &Rows,
    ends: &Ends,
    out: &mut [u8],
    at: usize,
    edge: u16,
    state: u16,
) -> usize
    requires { Accepted s.now shape × HasClocks (read_charts s.now) clocks.now × HasRows (read_charts s.now) rows.now × HasEnds (read_charts s.now) rows.now ends.now × (state < shape.states) × (at < 2 ^ 61) }
    ensures { Puts out.old at (literal_texts edge (must_nots (read_charts s.now) state)) out.new result (2 ^ 20) }
{
    let end = ends[state as usize] as usize;
    put_negations(s, shape, clocks, rows, out, at, edge, state, end)
}

// The clock of a waiting state: the sign is 1 where it must hold, 2 where it must not.
fn put_clock_literal(out: &mut [u8], at: usize, sign: u8, edge: u16, number: u16) -> usize
    requires { at < 2 ^ 62 }
    ensures { Puts out.old at (record_text 36 (sign ∷ bytes2 edge ++ write_literal_trigger (clock number) ++ write_guard none)) out.new result 16 }
{
    put_record(out, at, literal_bytes(sign, edge, 2, 0, number, 65535))
}

// Those of a state's idle edges, the first of which has this number. Where it waits, the due edge and then the other one read the clock behind the must-nots.
fn put_idle_literals_of(
    s: &[u8],
    shape: Shape,
    clocks: &ClockNumbers,
    rows: &Rows,
    ends: &Ends,
    out: &mut [u8],
    at: usize,
    edge: u16,
    state: u16,
) -> usize
    requires { Accepted s.now shape × HasClocks (read_charts s.now) clocks.now.own × HasWaiting (read_charts s.now) clocks.now.waiting × HasRows (read_charts s.now) rows.now × HasEnds (read_charts s.now) rows.now ends.now × (state < shape.states) × (edge ≡ first_idle (read_charts s.now) state) × (at < 2 ^ 60 + 2 ^ 40) }
    ensures { Puts out.old at (gather (literals_text (read_charts s.now)) (idle_origins (read_charts s.now) state)) out.new result (2 ^ 22) }
{
    let number = clocks.waiting[state as usize];
    let own = put_must_nots(s, shape, &clocks.own, rows, ends, out, at, edge, state);
    if number == 65535 {
        return own;
    }
    let idle = put_clock_literal(out, own, 1, edge, number);
    let last = put_must_nots(
        s,
        shape,
        &clocks.own,
        rows,
        ends,
        out,
        idle,
        edge + 1,
        state,
    );
    put_clock_literal(out, last, 2, edge + 1, number)
}

// Idle edges are numbered behind the transitions' edges.
pub fn put_idle_literals(
    s: &[u8],
    shape: Shape,
    clocks: &ClockNumbers,
    rows: &Rows,
    ends: &Ends,
    out: &mut [u8],
    at: usize,
) -> usize
    requires { Accepted s.now shape × HasClocks (read_charts s.now) clocks.now.own × HasWaiting (read_charts s.now) clocks.now.waiting × HasRows (read_charts s.now) rows.now × HasEnds (read_charts s.now) rows.now ends.now × (at < 2 ^ 60) }
    ensures { Puts out.old at (gather (λ st. gather (literals_text (read_charts s.now)) (idle_origins (read_charts s.now) st)) (upto (state_count (read_charts s.now)))) out.new result (2 ^ 40) }
{
    let mut next = at;
    let mut edge = shape.transitions;
    for state in 0..shape.states {
        next = put_idle_literals_of(s, shape, clocks, rows, ends, out, next, edge, state);
        edge += 1 + count_of(clocks.waiting[state as usize]);
    }
    next
}
