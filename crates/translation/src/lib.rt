// The translator: the automata of a chart set, written into a lent buffer.
#![tactic(auto)]

ghost use Rattle.std.specs.Prelude.{◌≡◌, ◌<◌, ◌^◌, leb, length};
ghost use Rattle.model.specs.Outcome.{settled};
ghost use Rattle.model.specs.ChartSet.{read_charts};
ghost use Rattle.model.specs.Translation.{twin, twin_bytes, written};
ghost use Rattle.chart_records.specs.Accepted.{Accepted};
ghost use Rattle.chart_steps.specs.Prepared.{Prepared};
ghost use Rattle.twin_records.specs.Tables.{HasClocks, HasWaiting};
ghost use Rattle.twin_records.specs.Texts.{places_text, tests_text, effects_text, Puts};
ghost use Rattle.translation.specs.Answer.{translated_of};

pub mod lengths;

use chart_records::Shape;
use chart_steps::tables::{Tables, fill_tables, no_tables};
use edge_records::literals::{put_idle_literals, put_literals};
use edge_records::resets::{Leaving, fill_leaving, put_resets};
use edge_records::updates::{put_due_updates, put_updates};
use lengths::twin_length;
use records::refusals::Refusal;
use records::sizes::{LONGEST_TABLE, STATES, TRANSITIONS};
use twin_records::clocks::{ClockNumbers, fill_clocks, fill_waiting, put_clocks};
use twin_records::edges::put_edges;
use twin_records::sections::{put_homes, put_initials, put_nodes, put_variables};

// Kinds 33 to 35.
fn put_places(s: &[u8], shape: Shape, clocks: &ClockNumbers, out: &mut [u8], at: usize) -> usize
    requires { Accepted s.now shape × HasWaiting (read_charts s.now) clocks.now.waiting × (at < 2 ^ 50) }
    ensures { Puts out.old at (places_text (twin (read_charts s.now))) out.new result (2 ^ 42) }
{
    let homes_at = put_initials(s, shape, out, at);
    let edges_at = put_homes(s, shape, out, homes_at);
    put_edges(s, shape, &clocks.waiting, out, edges_at)
}

// Kinds 36 to 39.
fn put_tests(
    s: &[u8],
    shape: Shape,
    clocks: &ClockNumbers,
    tables: &Tables,
    out: &mut [u8],
    at: usize,
) -> usize
    requires { Prepared s.now shape tables.now × HasClocks (read_charts s.now) clocks.now.own × HasWaiting (read_charts s.now) clocks.now.waiting × (at < 2 ^ 51) }
    ensures { Puts out.old at (tests_text (twin (read_charts s.now))) out.new result (2 ^ 43) }
{
    let idles_at = put_literals(s, shape, &clocks.own, &tables.rows, out, at);
    let clocks_at = put_idle_literals(s, shape, clocks, &tables.rows, &tables.ends, out, idles_at);
    let variables_at = put_clocks(s, shape, &tables.first, out, clocks_at);
    let nodes_at = put_variables(s, shape, out, variables_at);
    put_nodes(s, shape, out, nodes_at)
}

// Kinds 40 and 41.
fn put_effects(
    s: &[u8],
    shape: Shape,
    clocks: &ClockNumbers,
    tables: &Tables,
    out: &mut [u8],
    at: usize,
) -> usize
    requires { Prepared s.now shape tables.now × HasClocks (read_charts s.now) clocks.now.own × HasWaiting (read_charts s.now) clocks.now.waiting × (at < 2 ^ 52) }
    ensures { Puts out.old at (effects_text (twin (read_charts s.now))) out.new result (2 ^ 42) }
{
    let dues_at = put_updates(s, shape, &tables.first, &tables.next, out, at);
    let resets_at = put_due_updates(
        s,
        shape,
        &clocks.waiting,
        &tables.first,
        &tables.next,
        out,
        dues_at,
    );
    let mut leaving = Leaving {
        first: [65535u16; STATES],
        next: [65535u16; TRANSITIONS],
    };
    fill_leaving(s, shape, &mut leaving.first, &mut leaving.next);
    put_resets(s, shape, clocks, &leaving, out, resets_at)
}

// The twin's file from the buffer's start; answers its length, also where the buffer is shorter. The clocks' numbers are filled where they stand: given back by
// value they are copied.
fn put_twin(s: &[u8], shape: Shape, out: &mut [u8]) -> usize
    requires { Accepted s.now shape }
    ensures { Puts out.old 0 (twin_bytes s.now) out.new result (2 ^ 50) }
{
    let mut clocks = ClockNumbers {
        own: [0u16; TRANSITIONS],
        waiting: [65535u16; STATES],
    };
    let mut tables = no_tables();
    fill_tables(s, shape, &mut tables);
    let count = fill_clocks(s, shape, &mut clocks.own);
    fill_waiting(s, shape, &tables.first, count, &mut clocks.waiting);
    let tests_at = put_places(s, shape, &clocks, out, 0);
    let effects_at = put_tests(s, shape, &clocks, &tables, out, tests_at);
    put_effects(s, shape, &clocks, &tables, out, effects_at)
}

// The length is known before anything is written. No twin is longer than 265,344 bytes; for a buffer that has them nothing is counted.
fn has_room(s: &[u8], shape: Shape, room: usize) -> bool
    requires { Accepted s.now shape }
    ensures { result ≡ leb (length (twin_bytes s.now)) room }
{
    if LONGEST_TABLE <= room {
        return true;
    }
    twin_length(s, shape) <= room
}

// An accepted set translated into a lent buffer, and how long its file is: a buffer that is too short keeps its contents, and bytes beyond the result are kept.
pub fn translate(s: &[u8], shape: Shape, out: &mut [u8]) -> Result<usize, Refusal>
    requires { Accepted s.now shape }
    ensures { translated_of result out.new ≡ settled out.old (written (twin_bytes s.now) out.old) }
{
    if !has_room(s, shape, out.len()) {
        return Err(Refusal::ShortBuffer);
    }
    Ok(put_twin(s, shape, out))
}
