// An automaton's turn: the one open edge is taken.
ghost use Rattle.std.specs.Prelude.{◌≡◌, ◌+◌, ◌-◌, ◌≤◌, ◌<◌, length};
ghost use Rattle.prelude.specs.Owned.{of};
ghost use Rattle.model.specs.Runs.{action};
ghost use Rattle.model.specs.AutomataTable.{read_automata};
ghost use Rattle.model.specs.Automata.{reset, edge_step};
ghost use Rattle.automata_records.specs.Places.{first_update, first_reset, update_in, reset_in};
ghost use Rattle.machines.specs.Chains.{earliest};
ghost use Rattle.machines.specs.Worlds.{Moment, world_in, world_after, run_in};
ghost use Rattle.automata_records.specs.Accepted.{Accepted};
ghost use Rattle.automata_steps.specs.Index.{owned_by, NextOf, HasIndex, RoomFor};
ghost use Rattle.automata_steps.specs.StepOf.{take_edge, stepped_of, FaultKeeps};

use super::edges::open_edge;
use super::fields::{byte_of, first_reset, target_of, two_of};
use super::values::values_of;
use answers::Reason;
use automata_records::Shape;
use machines::deeds::{do_guarded, done_by};
use records::sizes::{Clocks, EFFECT_KEYS, Places, TableHeads, Variables};

// The update that is record n, if its guard holds. Its deed answers one number, in a register (docs/DECISIONS.md, "Inner answers are one number").
fn do_update(
    s: &[u8],
    shape: Shape,
    n: u16,
    vars: &mut Variables,
    events: u32,
) -> Result<u32, Reason>
    requires { Accepted s.now shape × (first_update shape ≤ n) × (n < first_reset shape) }
    ensures { (m : Moment) → world_after result vars.new m ≡ action (read_automata s.now).nodes (read_automata s.now).variables (update_in s.now n).1 (world_in vars.old events m) }
{
    let code = byte_of(s, n, 1);
    let x = byte_of(s, n, 4);
    let node = two_of(s, n, 6);
    let guard = two_of(s, n, 8);
    done_by(do_guarded(s, values_of(shape), guard, code, x, node, vars, events))
}

// The clock that record n resets.
fn clock_of(s: &[u8], shape: Shape, n: u16) -> u16
    requires { Accepted s.now shape × (first_reset shape ≤ n) × (n < first_reset shape + shape.resets) }
    ensures { (result ≡ (reset_in s.now n).1) × (result < shape.clocks) }
{
    two_of(s, n, 4)
}

// An edge's resets, from the record on where they start.
fn reset_clocks(s: &[u8], shape: Shape, next: &[u16], start: u16, e: u16, clocks: &mut Clocks)
    requires { Accepted s.now shape × NextOf s.now (first_reset shape) (first_reset shape + shape.resets) next.now × RoomFor shape next.now × (start ≡ earliest (owned_by s.now e) (first_reset shape) (first_reset shape + shape.resets - first_reset shape)) }
    ensures { clocks.new ≡ reset (of e (read_automata s.now).resets) clocks.old }
{
    let mut n = start;
    while n != 65535 {
        let k = clock_of(s, shape, n) as usize;
        clocks[k] = 0;
        n = next[n as usize];
    }
}

// An edge's updates, in file order, each seeing the last; then its resets, which stand behind them. The edge and the events after it.
fn take_edge(
    s: &[u8],
    shape: Shape,
    first: &TableHeads,
    next: &[u16],
    automaton: u16,
    locations: &mut Places,
    clocks: &mut Clocks,
    vars: &mut Variables,
    events: u32,
    e: u16,
) -> Result<(u16, u32), Reason>
    requires { Accepted s.now shape × HasIndex s.now shape first.now next.now × (automaton < 8) × (e < shape.edges) }
    ensures m_after { (m : Moment) → stepped_of result locations.new clocks.new vars.new m ≡ take_edge (read_automata s.now) automaton (run_in locations.old clocks.old vars.old events m) e }
    ensures clocks_len_unchanged { length clocks.new ≡ length clocks.old }
    ensures fault_keeps { FaultKeeps result locations.old clocks.old locations.new clocks.new }
{
    let reset = first_reset(shape);
    let mut raised = events;
    let mut n = first[(EFFECT_KEYS + e) as usize];
    while n < reset {
        raised = do_update(s, shape, n, vars, raised)?;
        n = next[n as usize];
    }
    reset_clocks(s, shape, next, n, e, clocks);
    let i = automaton as usize;
    locations[i] = target_of(s, shape, e);
    Ok((e, raised))
}

// In place: the edge taken and the events after it. After a fault the variables are of no use; locations and clocks are as they were.
pub fn edge_step(
    s: &[u8],
    shape: Shape,
    first: &TableHeads,
    next: &[u16],
    automaton: u16,
    locations: &mut Places,
    clocks: &mut Clocks,
    vars: &mut Variables,
    events: u32,
) -> Result<(u16, u32), Reason>
    requires accepted { Accepted s.now shape }
    requires has_index { HasIndex s.now shape first.now next.now }
    requires automaton_lt_automata { automaton < shape.automata }
    ensures m_after { (m : Moment) → stepped_of result locations.new clocks.new vars.new m ≡ edge_step (read_automata s.now) automaton (run_in locations.old clocks.old vars.old events m) }
    ensures clocks_len_unchanged { length clocks.new ≡ length clocks.old }
    ensures fault_keeps { FaultKeeps result locations.old clocks.old locations.new clocks.new }
{
    let i = automaton as usize;
    let location = locations[i];
    let e = open_edge(
        s, shape, first, next, clocks, vars, events, automaton, location,
    )?;
    take_edge(
        s, shape, first, next, automaton, locations, clocks, vars, events, e,
    )
}
