// The reader of chart files: the framing, the checks on what the records say, and the refusal of a file.
#![tactic(auto)]

ghost use Rattle.std.specs.Prelude.{◌≡◌};
ghost use Rattle.prelude.specs.Lists.{all};
ghost use Rattle.records.specs.Bytes.{records};
ghost use Rattle.model.specs.ChartFile.{unused, unused_are_zero, in_code};
ghost use Rattle.chart_records.specs.Shape.{IsShape};
ghost use Rattle.chart_files.specs.Checked.{IsShaped, IsChecked};

pub mod structure;
pub mod timing;
pub mod waiting;

use chart_checks::names::all_named;
use chart_checks::uses::nodes_fit;
use chart_records::Shape;
use chart_records::fields::node_records;
use expressions::sorts::test_nodes;
use framing::frame_of;
use record_tests::codes::in_code;
use record_tests::unused::record_clean;
use records::refusals::Refusal;
use records::sizes::{NODES, SET_LIMITS};
use structure::structured;
use timing::all_ticking;
use waiting::waits_alike;

// Refusals 1 to 3.
#[tactic(auto, using(crate::proofs::ShapeFramed::low))]
pub fn shape_of(s: &[u8]) -> Result<Shape, Refusal>
    ensures { IsShaped s.now result }
{
    let counts = frame_of(s, 1, &SET_LIMITS)?.counts;
    Ok(Shape {
        charts: counts[0] as u16,
        states: counts[1] as u16,
        transitions: counts[2] as u16,
        variables: counts[3] as u16,
        nodes: counts[4] as u16,
        actions: counts[5] as u16,
    })
}

// What all records pass by themselves: refusal 4, and 5.
#[derive(Clone, Copy)]
struct Tested {
    clean: bool,
    coded: bool,
}

// One pass for both. None is left early, so that a stray byte is refused before an earlier record's code.
fn test_records(s: &[u8]) -> Tested
    ensures { (result.clean ≡ all (λ r. unused_are_zero (unused r) r) (records s.now)) × (result.coded ≡ all in_code (records s.now)) }
{
    let mut clean = true;
    let mut coded = true;
    for r in s.chunks_exact(16) {
        clean &= record_clean(r);
        coded &= in_code(r);
    }
    Tested { clean, coded }
}

// Refusals 4 to 9 of a framed file, and 25, in their order.
#[tactic(auto, using(crate::proofs::ShapeChecked::outcomes))]
fn check_framed(s: &[u8], shape: Shape) -> Result<Shape, Refusal>
    requires { IsShape s.now shape }
    ensures { IsChecked s.now result }
{
    let tested = test_records(s);
    if !tested.clean {
        return Err(Refusal::StrayByte);
    }
    if !tested.coded {
        return Err(Refusal::BrokenCode);
    }
    let mut uses = [0u8; NODES];
    let nodes = node_records(s, shape);
    let tests = test_nodes(nodes, shape.nodes, shape.variables, &mut uses);
    if !all_named(s, shape, tests.named) {
        return Err(Refusal::DanglingNumber);
    }
    if !structured(s, shape) {
        return Err(Refusal::BrokenStructure);
    }
    if !nodes_fit(s, shape, tests.fit, &mut uses) {
        return Err(Refusal::BrokenNode);
    }
    if !all_ticking(s, shape) {
        return Err(Refusal::ZeroTicks);
    }
    if !waits_alike(s, shape) {
        return Err(Refusal::UnlikeWaits);
    }
    Ok(shape)
}

// The reader: a file's refusal, the lowest that applies, or its shape.
pub fn check(s: &[u8]) -> Result<Shape, Refusal>
    ensures { IsChecked s.now result }
{
    check_framed(s, shape_of(s)?)
}
