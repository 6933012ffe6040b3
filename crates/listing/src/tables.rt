// The lines of an automata table's records, without their ends.
ghost use Rattle.std.specs.Prelude.{◌<◌, ◌^◌, eqb};
ghost use Rattle.records.specs.Bytes.{byte, two as twoBytes};
ghost use Rattle.model.specs.AutomataTable.{read_edge, read_literal, read_clock, read_update, read_reset};
ghost use Rattle.listing_parts.specs.Parts.{WroteNear};
ghost use Rattle.listing.specs.Tables.{automaton_text, location_text, idle_text, edge_text, sign_text, literal_trigger_text, literal_text, timing_text, clock_text, update_text, reset_text};

use chart_records::fields::deed_by;
use listing_parts::fields::{one, put_conditional, put_guard, two};
use listing_parts::texts::{put_measured, put_named, put_word};
use records::{byte_at, u16_at};

pub fn put_automaton(out: &mut [u8], i: u32, r: &[u8]) -> usize
    ensures { WroteNear 256 out.old 0 (automaton_text i (twoBytes r.now 2)) out.new result }
{
    let next = put_named(out, 0, b"automaton ", i);
    put_named(out, next, b": initial location ", two(r, 2))
}

pub fn put_location(out: &mut [u8], i: u32, r: &[u8]) -> usize
    ensures { WroteNear 256 out.old 0 (location_text i (byte r.now 1)) out.new result }
{
    let next = put_named(out, 0, b"location ", i);
    put_named(out, next, b": automaton ", one(r, 1))
}

fn put_idle(out: &mut [u8], at: usize, idle: u8) -> usize
    requires { at < 2 ^ 18 }
    ensures { WroteNear 20 out.old at (idle_text (eqb idle 1)) out.new result }
{
    if idle == 1 {
        put_word(out, at, b", idle")
    } else {
        at
    }
}

pub fn put_edge(out: &mut [u8], i: u32, r: &[u8]) -> usize
    ensures { WroteNear 256 out.old 0 (edge_text i (read_edge r.now)) out.new result }
{
    let automaton = put_named(out, 0, b"edge ", i);
    let source = put_named(out, automaton, b": automaton ", one(r, 1));
    let target = put_named(out, source, b", location ", two(r, 2));
    let idle = put_named(out, target, b" to location ", two(r, 4));
    put_idle(out, idle, byte_at(r, 6))
}

fn put_sign(out: &mut [u8], at: usize, sign: u8) -> usize
    requires { at < 2 ^ 18 }
    ensures { WroteNear 20 out.old at (sign_text (eqb sign 1)) out.new result }
{
    if sign == 1 {
        put_word(out, at, b" must hold")
    } else {
        put_word(out, at, b" must not")
    }
}

#[tactic(auto, unfolding(prelude::specs::Lists::case_of))]
fn put_literal_trigger(out: &mut [u8], at: usize, r: &[u8]) -> usize
    requires { at < 2 ^ 18 }
    ensures { WroteNear 32 out.old at (literal_trigger_text (read_literal r.now).1.trigger) out.new result }
{
    match byte_at(r, 4) {
        1 => put_named(out, at, b": event ", one(r, 5)),
        2 => put_named(out, at, b": clock ", two(r, 6)),
        _ => put_word(out, at, b": always"),
    }
}

pub fn put_literal(out: &mut [u8], i: u32, r: &[u8]) -> usize
    ensures { WroteNear 256 out.old 0 (literal_text i (read_literal r.now)) out.new result }
{
    let edge = put_named(out, 0, b"literal ", i);
    let sign = put_named(out, edge, b": edge ", two(r, 2));
    let trigger = put_sign(out, sign, byte_at(r, 1));
    let guard = put_literal_trigger(out, trigger, r);
    put_guard(out, guard, u16_at(r, 8))
}

#[tactic(auto, unfolding(prelude::specs::Lists::case_of))]
fn put_timing(out: &mut [u8], at: usize, r: &[u8]) -> usize
    requires { at < 2 ^ 18 }
    ensures { WroteNear 52 out.old at (timing_text (read_clock r.now).timing (twoBytes r.now 2)) out.new result }
{
    if byte_at(r, 1) == 2 {
        put_measured(out, at, b": after ", two(r, 2), b" ticks")
    } else {
        put_measured(out, at, b": every ", two(r, 2), b" ticks")
    }
}

pub fn put_clock(out: &mut [u8], i: u32, r: &[u8]) -> usize
    ensures { WroteNear 256 out.old 0 (clock_text i (read_clock r.now)) out.new result }
{
    let next = put_named(out, 0, b"clock ", i);
    put_timing(out, next, r)
}

pub fn put_update(out: &mut [u8], i: u32, r: &[u8]) -> usize
    ensures { WroteNear 256 out.old 0 (update_text i (read_update r.now)) out.new result }
{
    let edge = put_named(out, 0, b"update ", i);
    let deed = put_named(out, edge, b": edge ", two(r, 2));
    put_conditional(
        out,
        deed,
        u16_at(r, 8),
        deed_by(byte_at(r, 1), byte_at(r, 4), u16_at(r, 6)),
    )
}

pub fn put_reset(out: &mut [u8], i: u32, r: &[u8]) -> usize
    ensures { WroteNear 256 out.old 0 (reset_text i (read_reset r.now)) out.new result }
{
    let edge = put_named(out, 0, b"reset ", i);
    let clock = put_named(out, edge, b": edge ", two(r, 2));
    put_named(out, clock, b": clock ", two(r, 4))
}
