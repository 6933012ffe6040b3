// Refusal 6: numbers that name nothing.
ghost use Rattle.std.specs.Prelude.{◌≡◌};
ghost use Rattle.prelude.specs.Lists.{all, upto};
ghost use Rattle.expressions.specs.Nodes.{node_at};
ghost use Rattle.expressions.specs.Sorts.{nodes_named};
ghost use Rattle.model.specs.ChartSet.{read_charts};
ghost use Rattle.model.specs.ChartFile.{guard_named, deed_named, all_named};
ghost use Rattle.model.specs.ChartFile as file;
ghost use Rattle.chart_records.specs.Shape.{IsShape};
ghost use Rattle.chart_records.specs.Places.{node_part};
ghost use Rattle.chart_records.specs.Parts.{guard_for, deed_for};
ghost use Rattle.chart_checks.specs.Names.{initial_named, home_named, transition_named, action_named};

use chart_records::Shape;
use chart_records::fields::{
    Deed, condition_of, deed_of, guard_of, home_of, initial_of, owner_of, place_of, source_of,
    target_of,
};

fn initials_named(s: &[u8], shape: Shape) -> bool
    ensures { result ≡ all (initial_named s.now shape) (upto shape.charts) }
{
    (0..shape.charts).all(|c| initial_of(s, c) < shape.states)
}

fn homes_named(s: &[u8], shape: Shape) -> bool
    ensures { result ≡ all (home_named s.now shape) (upto shape.states) }
{
    (0..shape.states).all(|n| (home_of(s, shape, n) as u16) < shape.charts)
}

pub fn guard_named(guard: Option<u16>, nodes: u16) -> bool
    ensures { result ≡ guard_named nodes (guard_for guard) }
{
    guard.is_none_or(|n| n < nodes)
}

fn transition_named(s: &[u8], shape: Shape, t: u16) -> bool
    ensures { result ≡ transition_named s.now shape t }
{
    (source_of(s, shape, t) < shape.states)
        & (target_of(s, shape, t) < shape.states)
        & guard_named(guard_of(s, shape, t), shape.nodes)
}

fn transitions_named(s: &[u8], shape: Shape) -> bool
    ensures { result ≡ all (transition_named s.now shape) (upto shape.transitions) }
{
    (0..shape.transitions).all(|t| transition_named(s, shape, t))
}

fn deed_named(deed: Deed, variables: u16, nodes: u16) -> bool
    ensures { result ≡ deed_named variables nodes (deed_for deed) }
{
    match deed {
        Deed::Assign(v, n) => ((v as u16) < variables) & (n < nodes),
        Deed::Raise(_) => true,
    }
}

// The guard and the deed of an action or update.
pub fn parts_named(guard: Option<u16>, deed: Deed, variables: u16, nodes: u16) -> bool
    ensures { result ≡ file.action_named variables nodes (record { guard = guard_for guard; deed = deed_for deed }) }
{
    guard_named(guard, nodes) & deed_named(deed, variables, nodes)
}

// An action that is neither a state's nor a transition's passes.
fn action_named(s: &[u8], shape: Shape, i: u16) -> bool
    ensures { result ≡ action_named s.now shape i }
{
    let place = place_of(s, shape, i);
    let owner = owner_of(s, shape, i);
    let named = parts_named(
        condition_of(s, shape, i),
        deed_of(s, shape, i),
        shape.variables,
        shape.nodes,
    );
    (!((place == 1) | (place == 2) | (place == 4)) | ((owner < shape.states) & named))
        & ((place != 3) | ((owner < shape.transitions) & named))
}

fn actions_named(s: &[u8], shape: Shape) -> bool
    ensures { result ≡ all (action_named s.now shape) (upto shape.actions) }
{
    (0..shape.actions).all(|i| action_named(s, shape, i))
}

// Of the nodes it is known by what `test_nodes` found.
#[tactic(auto, using(crate::proofs::NamesFramed::names))]
pub fn all_named(s: &[u8], shape: Shape, named: bool) -> bool
    requires { IsShape s.now shape × (named ≡ nodes_named (node_at (node_part s.now shape)) shape.nodes shape.variables) }
    ensures { result ≡ all_named (read_charts s.now) }
{
    initials_named(s, shape)
        & homes_named(s, shape)
        & transitions_named(s, shape)
        & named
        & actions_named(s, shape)
}
