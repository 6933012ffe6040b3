// Refusal 11 beyond 1 to 6: ticks of clocks, ends of edges, idle edges.
ghost use Rattle.std.specs.Prelude.{◌≡◌};
ghost use Rattle.prelude.specs.Lists.{all, upto};
ghost use Rattle.model.specs.Owned.{home};
ghost use Rattle.model.specs.AutomataTable.{read_automata};
ghost use Rattle.model.specs.AutomataFile.{clocks_tick, inside_automata, idle_edges_stay};
ghost use Rattle.automata_records.specs.Shape.{IsShape};
ghost use Rattle.automata_records.specs.Structure.{clock_ticks, edge_inside, initial_inside, idle_stays};

use automata_records::Shape;
use automata_records::fields::{
    automaton_of, home_of, idles, initial_of, source_of, target_of, ticks_of,
};
use records::sizes::MOST_TICKS;

fn clock_ticks(s: &[u8], shape: Shape, k: u16) -> bool
    ensures { result ≡ clock_ticks s.now shape k }
{
    let ticks = ticks_of(s, shape, k);
    (1 <= ticks) & (ticks <= MOST_TICKS)
}

pub fn clocks_tick(s: &[u8], shape: Shape) -> bool
    requires { IsShape s.now shape }
    ensures { result ≡ clocks_tick (read_automata s.now) }
{
    (0..shape.clocks).all(|k| clock_ticks(s, shape, k))
}

// The automaton of a location; 0 of what is none.
fn automaton_at(s: &[u8], shape: Shape, location: u16) -> u8
    requires { IsShape s.now shape }
    ensures { result ≡ home (read_automata s.now).homes location }
{
    if location < shape.locations {
        home_of(s, shape, location)
    } else {
        0
    }
}

fn edge_inside(s: &[u8], shape: Shape, e: u16) -> bool
    requires { IsShape s.now shape }
    ensures { result ≡ edge_inside s.now shape e }
{
    let automaton = automaton_of(s, shape, e);
    let from = automaton_at(s, shape, source_of(s, shape, e));
    let to = automaton_at(s, shape, target_of(s, shape, e));
    (from == automaton) & (to == automaton)
}

fn edges_inside(s: &[u8], shape: Shape) -> bool
    requires { IsShape s.now shape }
    ensures { result ≡ all (edge_inside s.now shape) (upto shape.edges) }
{
    (0..shape.edges).all(|e| edge_inside(s, shape, e))
}

fn initial_inside(s: &[u8], shape: Shape, a: u16) -> bool
    requires { IsShape s.now shape }
    ensures { result ≡ initial_inside s.now shape a }
{
    let home = automaton_at(s, shape, initial_of(s, a)) as u16;
    home == a
}

fn initials_inside(s: &[u8], shape: Shape) -> bool
    requires { IsShape s.now shape }
    ensures { result ≡ all (initial_inside s.now shape) (upto shape.automata) }
{
    (0..shape.automata).all(|a| initial_inside(s, shape, a))
}

#[tactic(auto, using(crate::proofs::StructureTests::inside_is))]
pub fn inside_automata(s: &[u8], shape: Shape) -> bool
    requires { IsShape s.now shape }
    ensures { result ≡ inside_automata (read_automata s.now) }
{
    edges_inside(s, shape) & initials_inside(s, shape)
}

fn idle_stays(s: &[u8], shape: Shape, e: u16) -> bool
    ensures { result ≡ idle_stays s.now shape e }
{
    let source = source_of(s, shape, e);
    let target = target_of(s, shape, e);
    !idles(s, shape, e) | (source == target)
}

pub fn idle_edges_stay(s: &[u8], shape: Shape) -> bool
    requires { IsShape s.now shape }
    ensures { result ≡ idle_edges_stay (read_automata s.now) }
{
    (0..shape.edges).all(|e| idle_stays(s, shape, e))
}
