// Updates by edge: exit actions of the source, the transition's, entry actions of the target; of a due edge the state's waiting actions.
ghost use Rattle.std.specs.Prelude.{◌≡◌, map, ◌+◌, ◌<◌, ◌^◌};
ghost use Rattle.prelude.specs.Lists.{keep, gather, upto};
ghost use Rattle.model.specs.ChartSet.{read_charts, read_plus_one};
ghost use Rattle.model.specs.AutomataTable.{write_update};
ghost use Rattle.model.specs.Translation.{from_transition, transition_count, state_count, idle_origins, first_idle};
ghost use Rattle.chart_records.specs.Parts.{deed_for};
ghost use Rattle.chart_records.specs.Places.{action_at};
ghost use Rattle.chart_records.specs.Accepted.{Accepted};
ghost use Rattle.chart_steps.specs.Tables.{keyed, HasActions, action_keys};
ghost use Rattle.twin_records.specs.Tables.{HasWaiting};
ghost use Rattle.twin_records.specs.Texts.{record_text, update_texts, updates_text, Puts};

use chart_records::Shape;
use chart_records::fields::Deed;
use chart_steps::actions::condition_of;
use chart_steps::transitions::{source_of, target_of};
use records::sizes::{ActionHeads, ActionLinks, CROSSING_KEYS, EXIT_KEYS, STATES, WAITING_KEYS};
use twin_records::clocks::count_of;
use twin_records::fields::deed_of;
use twin_records::writing::{put_record, update_bytes};

// The guard is carried as the action has it: its node plus one.
fn update_record(edge: u16, guard: u16, deed: Deed) -> [u8; 16]
    ensures { result ≡ record_text 40 (write_update (edge, record { guard = read_plus_one guard; deed = deed_for deed })) }
{
    match deed {
        Deed::Assign(v, n) => update_bytes(1, edge, v, n, guard),
        Deed::Raise(e) => update_bytes(2, edge, e, 0, guard),
    }
}

// The actions of a key, in file order.
fn put_actions(
    s: &[u8],
    shape: Shape,
    first: &ActionHeads,
    next: &ActionLinks,
    out: &mut [u8],
    at: usize,
    edge: u16,
    key: u16,
) -> usize
    requires { Accepted s.now shape × HasActions s.now shape first.now next.now × (key < action_keys) × (at < 2 ^ 61) }
    ensures { Puts out.old at (update_texts edge (map (λ a. (action_at s.now shape a).1) (keep (keyed s.now shape key) (upto shape.actions)))) out.new result (2 ^ 20) }
{
    let mut place = at;
    let mut a = first[key as usize];
    while a != 65535 {
        let bytes = update_record(edge, condition_of(s, shape, a), deed_of(s, shape, a));
        place = put_record(out, place, bytes);
        a = next[a as usize];
    }
    place
}

fn put_updates_of(
    s: &[u8],
    shape: Shape,
    first: &ActionHeads,
    next: &ActionLinks,
    out: &mut [u8],
    at: usize,
    t: u16,
) -> usize
    requires { Accepted s.now shape × HasActions s.now shape first.now next.now × (t < shape.transitions) × (at < 2 ^ 60 + 2 ^ 40) }
    ensures { Puts out.old at (updates_text (read_charts s.now) (from_transition t)) out.new result (2 ^ 22) }
{
    let leaving = EXIT_KEYS + source_of(s, shape, t);
    let crossing = CROSSING_KEYS + t;
    let entering = target_of(s, shape, t);
    let crossing_at = put_actions(s, shape, first, next, out, at, t, leaving);
    let entering_at = put_actions(s, shape, first, next, out, crossing_at, t, crossing);
    put_actions(s, shape, first, next, out, entering_at, t, entering)
}

pub fn put_updates(
    s: &[u8],
    shape: Shape,
    first: &ActionHeads,
    next: &ActionLinks,
    out: &mut [u8],
    at: usize,
) -> usize
    requires { Accepted s.now shape × HasActions s.now shape first.now next.now × (at < 2 ^ 60) }
    ensures { Puts out.old at (gather (λ t. updates_text (read_charts s.now) (from_transition t)) (upto (transition_count (read_charts s.now)))) out.new result (2 ^ 40) }
{
    let mut place = at;
    for t in 0..shape.transitions {
        place = put_updates_of(s, shape, first, next, out, place, t);
    }
    place
}

// Those of a state's idle edges: the due one alone has any.
fn put_due_updates_of(
    s: &[u8],
    shape: Shape,
    waiting: &[u16; STATES],
    first: &ActionHeads,
    next: &ActionLinks,
    out: &mut [u8],
    at: usize,
    edge: u16,
    state: u16,
) -> usize
    requires { Accepted s.now shape × HasWaiting (read_charts s.now) waiting.now × HasActions s.now shape first.now next.now × (state < shape.states) × (edge ≡ first_idle (read_charts s.now) state) × (at < 2 ^ 61) }
    ensures { Puts out.old at (gather (updates_text (read_charts s.now)) (idle_origins (read_charts s.now) state)) out.new result (2 ^ 20) }
{
    if waiting[state as usize] == 65535 {
        return at;
    }
    put_actions(s, shape, first, next, out, at, edge, WAITING_KEYS + state)
}

// Due edges are numbered behind the transitions' edges.
pub fn put_due_updates(
    s: &[u8],
    shape: Shape,
    waiting: &[u16; STATES],
    first: &ActionHeads,
    next: &ActionLinks,
    out: &mut [u8],
    at: usize,
) -> usize
    requires { Accepted s.now shape × HasWaiting (read_charts s.now) waiting.now × HasActions s.now shape first.now next.now × (at < 2 ^ 60) }
    ensures { Puts out.old at (gather (λ st. gather (updates_text (read_charts s.now)) (idle_origins (read_charts s.now) st)) (upto (state_count (read_charts s.now)))) out.new result (2 ^ 40) }
{
    let mut place = at;
    let mut edge = shape.transitions;
    for state in 0..shape.states {
        place = put_due_updates_of(s, shape, waiting, first, next, out, place, edge, state);
        edge += 1 + count_of(waiting[state as usize]);
    }
    place
}
