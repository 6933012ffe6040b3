// Edges of a location, and which of them is open.
ghost use Rattle.std.specs.Prelude.{◌≡◌, cond, List, [], ◌∷◌, ℕ, ◌<◌, eqb};
ghost use Rattle.expressions.specs.Answers.{truth_of};
ghost use Rattle.model.specs.AutomataTable.{read_automata};
ghost use Rattle.automata_records.specs.Places.{edge_at};
ghost use Rattle.automata_records.specs.Accepted.{Accepted};
ghost use Rattle.automata_steps.specs.Index.{HasIndex};
ghost use Rattle.automata_steps.specs.StepOf.{bare_run, edge_open, tally_of, one_open, counted_of, the_open, choice_of, TallyIn, CountedIn, ChoiceIn};

use super::fields::{automaton_of, first_edge};
use super::literals::literal_holds;
use answers::Reason;
use automata_records::Shape;
use records::sizes::{Clocks, LITERAL_KEYS, TableHeads, Variables};

// What the edges read so far come to: three cases, of which an Option has two, and two or more are told only when all are read.
#[derive(Clone, Copy)]
pub enum Tally {
    Nothing,
    One(u16),
    Many,
}

// An edge's literals, in file order up to the first that fails.
fn edge_open(
    s: &[u8],
    shape: Shape,
    first: &TableHeads,
    next: &[u16],
    clocks: &Clocks,
    vars: &Variables,
    events: u32,
    e: u16,
) -> Result<bool, expressions::outcomes::Reason>
    requires { Accepted s.now shape × HasIndex s.now shape first.now next.now × (e < shape.edges) }
    ensures { truth_of result ≡ edge_open (read_automata s.now) (bare_run clocks.now vars.now events) e }
{
    let mut n = first[(LITERAL_KEYS + e) as usize];
    while n != 65535 {
        if !literal_holds(s, shape, clocks, vars, events, n)? {
            return Ok(false);
        }
        n = next[n as usize];
    }
    Ok(true)
}

// One edge more.
fn with_open(tally: Tally, e: u16) -> Tally
    ensures by_index { (es : List ℕ) → tally_of result es ≡ tally_of tally (e ∷ es) }
    ensures by_index_2 { (edges : ℕ) → e < edges → TallyIn edges result }
{
    match tally {
        Tally::Nothing => Tally::One(e),
        Tally::One(_) => Tally::Many,
        Tally::Many => Tally::Many,
    }
}

// An edge is read if it is the automaton's, and counts if it is open.
fn count_edge(
    s: &[u8],
    shape: Shape,
    first: &TableHeads,
    next: &[u16],
    clocks: &Clocks,
    vars: &Variables,
    events: u32,
    automaton: u16,
    e: u16,
    tally: Tally,
) -> Result<Tally, Reason>
    requires { Accepted s.now shape × HasIndex s.now shape first.now next.now × (e < shape.edges) × TallyIn shape.edges tally }
    ensures by_index { (es : List ℕ) → counted_of (edge_open (read_automata s.now) (bare_run clocks.now vars.now events)) result es ≡ one_open (edge_open (read_automata s.now) (bare_run clocks.now vars.now events)) tally (cond (eqb (edge_at s.now shape e).automaton automaton) (e ∷ es) es) }
    ensures counted_in { CountedIn shape.edges result }
{
    if (automaton_of(s, shape, e) as u16) != automaton {
        return Ok(tally);
    }
    let open = edge_open(s, shape, first, next, clocks, vars, events, e)?;
    if open {
        Ok(with_open(tally, e))
    } else {
        Ok(tally)
    }
}

fn choice_for(tally: Tally) -> Result<u16, Reason>
    ensures result_value { choice_of result ≡ tally_of tally [] }
    ensures by_index { (edges : ℕ) → TallyIn edges tally → ChoiceIn edges result }
{
    match tally {
        Tally::Nothing => Err(Reason::NoneOpen),
        Tally::One(e) => Ok(e),
        Tally::Many => Err(Reason::ManyOpen),
    }
}

// The one open edge. All that leave the location are read, in ascending order, before it is said that none or many are open; a location that the table
// does not have is left by none.
pub fn open_edge(
    s: &[u8],
    shape: Shape,
    first: &TableHeads,
    next: &[u16],
    clocks: &Clocks,
    vars: &Variables,
    events: u32,
    automaton: u16,
    location: u16,
) -> Result<u16, Reason>
    requires { Accepted s.now shape × HasIndex s.now shape first.now next.now }
    ensures result_value { choice_of result ≡ the_open (read_automata s.now) (bare_run clocks.now vars.now events) automaton location }
    ensures choice_in { ChoiceIn shape.edges result }
{
    if shape.locations <= location {
        return Err(Reason::NoneOpen);
    }
    let start = first_edge(shape);
    let mut tally = Tally::Nothing;
    let mut n = first[location as usize];
    while n != 65535 {
        tally = count_edge(
            s,
            shape,
            first,
            next,
            clocks,
            vars,
            events,
            automaton,
            n - start,
            tally,
        )?;
        n = next[n as usize];
    }
    choice_for(tally)
}
