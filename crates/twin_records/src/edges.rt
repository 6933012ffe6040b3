// Edges: one per transition, in order, then per state, in state order, its due edge if it waits, and its idle one.
ghost use Rattle.std.specs.Prelude.{◌≡◌, map, ◌+◌, ◌<◌, ◌^◌};
ghost use Rattle.model.specs.ChartSet.{read_charts};
ghost use Rattle.model.specs.AutomataTable.{write_edge};
ghost use Rattle.model.specs.Translation.{from_transition, from_idling, transition_count, state_count, idle_origins, twin};
ghost use Rattle.prelude.specs.Lists.{gather, upto};
ghost use Rattle.chart_records.specs.Accepted.{Accepted};
ghost use Rattle.twin_records.specs.Tables.{HasWaiting};
ghost use Rattle.twin_records.specs.Texts.{section, edge_text, Puts};

use super::writing::{edge_bytes, put_record};
use chart_records::Shape;
use chart_records::fields::home_of;
use chart_steps::transitions::{source_of, target_of};
use records::sizes::STATES;

fn transition_record(s: &[u8], shape: Shape, t: u16) -> [u8; 16]
    requires { Accepted s.now shape × (t < shape.transitions) }
    ensures { result ≡ edge_text (read_charts s.now) (from_transition t) }
{
    let source = source_of(s, shape, t);
    edge_bytes(home_of(s, shape, source), source, target_of(s, shape, t), 0)
}

fn idle_record(s: &[u8], shape: Shape, state: u16) -> [u8; 16]
    requires { Accepted s.now shape × (state < shape.states) }
    ensures { result ≡ edge_text (read_charts s.now) (from_idling state) }
{
    edge_bytes(home_of(s, shape, state), state, state, 1)
}

fn put_transition_edges(s: &[u8], shape: Shape, out: &mut [u8], at: usize) -> usize
    requires { Accepted s.now shape × (at < 2 ^ 60) }
    ensures { Puts out.old at (gather (λ t. edge_text (read_charts s.now) (from_transition t)) (upto (transition_count (read_charts s.now)))) out.new result (2 ^ 20) }
{
    let mut next = at;
    for t in 0..shape.transitions {
        let bytes = transition_record(s, shape, t);
        next = put_record(out, next, bytes);
    }
    next
}

// The due edge's record is the idle one's: only what belongs to them differs.
fn put_idle_edges_of(
    s: &[u8],
    shape: Shape,
    waiting: &[u16; STATES],
    out: &mut [u8],
    at: usize,
    state: u16,
) -> usize
    requires { Accepted s.now shape × HasWaiting (read_charts s.now) waiting.now × (state < shape.states) × (at < 2 ^ 61) }
    ensures { Puts out.old at (gather (edge_text (read_charts s.now)) (idle_origins (read_charts s.now) state)) out.new result 32 }
{
    let bytes = idle_record(s, shape, state);
    if waiting[state as usize] == 65535 {
        return put_record(out, at, bytes);
    }
    let idle_at = put_record(out, at, bytes);
    put_record(out, idle_at, bytes)
}

fn put_idle_edges(
    s: &[u8],
    shape: Shape,
    waiting: &[u16; STATES],
    out: &mut [u8],
    at: usize,
) -> usize
    requires { Accepted s.now shape × HasWaiting (read_charts s.now) waiting.now × (at < 2 ^ 60 + 2 ^ 20) }
    ensures { Puts out.old at (gather (λ st. gather (edge_text (read_charts s.now)) (idle_origins (read_charts s.now) st)) (upto (state_count (read_charts s.now)))) out.new result (2 ^ 20) }
{
    let mut next = at;
    for state in 0..shape.states {
        next = put_idle_edges_of(s, shape, waiting, out, next, state);
    }
    next
}

pub fn put_edges(
    s: &[u8],
    shape: Shape,
    waiting: &[u16; STATES],
    out: &mut [u8],
    at: usize,
) -> usize
    requires { Accepted s.now shape × HasWaiting (read_charts s.now) waiting.now × (at < 2 ^ 60) }
    ensures { Puts out.old at (section 35 (map write_edge (twin (read_charts s.now)).edges)) out.new result (2 ^ 40) }
{
    let idles_at = put_transition_edges(s, shape, out, at);
    put_idle_edges(s, shape, waiting, out, idles_at)
}
