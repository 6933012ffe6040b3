// The reader of automata tables: the framing, the checks on what the records say, and refusal 11.
#![tactic(auto)]

ghost use Rattle.std.specs.Prelude.{◌≡◌, ◌&&◌, ◌≤◌, length};
ghost use Rattle.prelude.specs.Lists.{all};
ghost use Rattle.records.specs.Bytes.{records};
ghost use Rattle.model.specs.ChartFile.{unused_are_zero};
ghost use Rattle.model.specs.AutomataFile.{unused_in_table, table_in_code};
ghost use Rattle.automata_records.specs.Shape.{IsShape};
ghost use Rattle.automata_files.specs.Checked.{IsShaped, IsChecked};
ghost use Rattle.automata_files.specs.Checks.{passes};

pub mod codes;
pub mod names;
pub mod nodes;
pub mod structure;
pub mod unused;

use automata_records::Shape;
use automata_records::fields::node_records;
use codes::in_code;
use expressions::sorts::test_nodes;
use framing::frame_of;
use names::table_named;
use nodes::table_nodes_fit;
use records::refusals::Refusal;
use records::sizes::{NODES, TABLE_LIMITS};
use structure::{clocks_tick, idle_edges_stay, inside_automata};
use unused::record_clean;

// Refusals 1 to 3, read for kinds 33 to 41. What is refused is refused as 11, whatever the test.
#[tactic(auto, using(crate::proofs::ShapeFramed::low))]
pub fn shape_of(s: &[u8]) -> Result<Shape, Refusal>
    ensures { IsShaped s.now result }
{
    let framed = frame_of(s, 33, &TABLE_LIMITS);
    let counts = framed.map_err(|_| Refusal::BadTable)?.counts;
    Ok(Shape {
        automata: counts[0] as u16,
        locations: counts[1] as u16,
        edges: counts[2] as u16,
        literals: counts[3] as u16,
        clocks: counts[4] as u16,
        variables: counts[5] as u16,
        nodes: counts[6] as u16,
        updates: counts[7] as u16,
        resets: counts[8] as u16,
    })
}

// The tests of a record by itself, in one pass.
fn record_sound(r: &[u8]) -> bool
    requires { 16 ≤ length r.now }
    ensures { result ≡ (unused_are_zero (unused_in_table r.now) r.now && table_in_code r.now) }
{
    record_clean(r) & in_code(r)
}

fn all_sound(s: &[u8]) -> bool
    ensures { result ≡ all (λ r. unused_are_zero (unused_in_table r) r && table_in_code r) (records s.now) }
{
    s.chunks_exact(16).all(record_sound)
}

// The tests behind framing, each one pass over the records of its kinds.
fn passes(s: &[u8], shape: Shape) -> bool
    requires { IsShape s.now shape }
    ensures { result ≡ passes s.now }
{
    let mut uses = [0u8; NODES];
    let nodes = node_records(s, shape);
    let tests = test_nodes(nodes, shape.nodes, shape.variables, &mut uses);
    all_sound(s)
        & table_named(s, shape, tests.named)
        & clocks_tick(s, shape)
        & inside_automata(s, shape)
        & idle_edges_stay(s, shape)
        & table_nodes_fit(s, shape, tests.fit, &uses)
}

// The reader: refusal 11, or the file's shape.
pub fn check(s: &[u8]) -> Result<Shape, Refusal>
    ensures { IsChecked s.now result }
{
    let shape = shape_of(s)?;
    if passes(s, shape) {
        Ok(shape)
    } else {
        Err(Refusal::BadTable)
    }
}
