// Refusal 6, read for an automata file: numbers that name nothing.
ghost use Rattle.std.specs.Prelude.{◌≡◌};
ghost use Rattle.prelude.specs.Lists.{all, upto};
ghost use Rattle.expressions.specs.Nodes.{node_at};
ghost use Rattle.expressions.specs.Sorts.{nodes_named};
ghost use Rattle.model.specs.AutomataTable.{read_automata};
ghost use Rattle.model.specs.AutomataFile.{literal_trigger_named, table_named};
ghost use Rattle.automata_records.specs.Shape.{IsShape};
ghost use Rattle.automata_records.specs.Places.{node_part};
ghost use Rattle.automata_records.specs.Parts.{literal_trigger_for};
ghost use Rattle.automata_records.specs.Names.{initial_named, home_named, edge_named, literal_named, update_named, reset_named};

use automata_records::Shape;
use automata_records::fields::{
    LiteralTrigger, automaton_of, condition_of, deed_of, guard_of, home_of, initial_of,
    literal_edge, literal_trigger_of, reset_clock, reset_edge, source_of, target_of, update_edge,
};
use chart_checks::names::{guard_named, parts_named};

fn initial_named(s: &[u8], shape: Shape, a: u16) -> bool
    ensures { result ≡ initial_named s.now shape a }
{
    initial_of(s, a) < shape.locations
}

fn initials_named(s: &[u8], shape: Shape) -> bool
    ensures { result ≡ all (initial_named s.now shape) (upto shape.automata) }
{
    (0..shape.automata).all(|a| initial_named(s, shape, a))
}

fn home_named(s: &[u8], shape: Shape, n: u16) -> bool
    ensures { result ≡ home_named s.now shape n }
{
    (home_of(s, shape, n) as u16) < shape.automata
}

fn homes_named(s: &[u8], shape: Shape) -> bool
    ensures { result ≡ all (home_named s.now shape) (upto shape.locations) }
{
    (0..shape.locations).all(|n| home_named(s, shape, n))
}

fn edge_named(s: &[u8], shape: Shape, e: u16) -> bool
    ensures { result ≡ edge_named s.now shape e }
{
    ((automaton_of(s, shape, e) as u16) < shape.automata)
        & (source_of(s, shape, e) < shape.locations)
        & (target_of(s, shape, e) < shape.locations)
}

fn edges_named(s: &[u8], shape: Shape) -> bool
    ensures { result ≡ all (edge_named s.now shape) (upto shape.edges) }
{
    (0..shape.edges).all(|e| edge_named(s, shape, e))
}

fn literal_trigger_named(trigger: LiteralTrigger, clocks: u16) -> bool
    ensures { result ≡ literal_trigger_named clocks (literal_trigger_for trigger) }
{
    match trigger {
        LiteralTrigger::Always => true,
        LiteralTrigger::Event(_) => true,
        LiteralTrigger::Clock(k) => k < clocks,
    }
}

fn literal_named(s: &[u8], shape: Shape, l: u16) -> bool
    ensures { result ≡ literal_named s.now shape l }
{
    (literal_edge(s, shape, l) < shape.edges)
        & literal_trigger_named(literal_trigger_of(s, shape, l), shape.clocks)
        & guard_named(guard_of(s, shape, l), shape.nodes)
}

fn literals_named(s: &[u8], shape: Shape) -> bool
    ensures { result ≡ all (literal_named s.now shape) (upto shape.literals) }
{
    (0..shape.literals).all(|l| literal_named(s, shape, l))
}

fn update_named(s: &[u8], shape: Shape, u: u16) -> bool
    ensures { result ≡ update_named s.now shape u }
{
    (update_edge(s, shape, u) < shape.edges)
        & parts_named(
            condition_of(s, shape, u),
            deed_of(s, shape, u),
            shape.variables,
            shape.nodes,
        )
}

fn updates_named(s: &[u8], shape: Shape) -> bool
    ensures { result ≡ all (update_named s.now shape) (upto shape.updates) }
{
    (0..shape.updates).all(|u| update_named(s, shape, u))
}

fn reset_named(s: &[u8], shape: Shape, r: u16) -> bool
    ensures { result ≡ reset_named s.now shape r }
{
    (reset_edge(s, shape, r) < shape.edges) & (reset_clock(s, shape, r) < shape.clocks)
}

fn resets_named(s: &[u8], shape: Shape) -> bool
    ensures { result ≡ all (reset_named s.now shape) (upto shape.resets) }
{
    (0..shape.resets).all(|i| reset_named(s, shape, i))
}

// Of the nodes it is known by what `test_nodes` found.
#[tactic(auto, using(crate::proofs::StructureTests::names))]
pub fn table_named(s: &[u8], shape: Shape, named: bool) -> bool
    requires { IsShape s.now shape × (named ≡ nodes_named (node_at (node_part s.now shape)) shape.nodes shape.variables) }
    ensures { result ≡ table_named (read_automata s.now) }
{
    initials_named(s, shape)
        & homes_named(s, shape)
        & edges_named(s, shape)
        & literals_named(s, shape)
        & named
        & updates_named(s, shape)
        & resets_named(s, shape)
}
