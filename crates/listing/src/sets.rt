// The lines of a chart set's records, without their ends.
ghost use Rattle.std.specs.Prelude.{◌<◌, ◌^◌};
ghost use Rattle.records.specs.Bytes.{byte, two as twoBytes, four};
ghost use Rattle.model.specs.ChartSet.{read_transition};
ghost use Rattle.listing_parts.specs.Parts.{WroteNear};
ghost use Rattle.listing.specs.Sets.{chart_text, state_text, trigger_text, transition_text, waiting_text, owner_text, action_text};

use chart_records::fields::deed_by;
use listing_parts::fields::{one, put_conditional, put_guard, two};
use listing_parts::texts::{put_measured, put_named, put_word};
use records::{byte_at, u16_at, u32_at};

pub fn put_chart(out: &mut [u8], i: u32, r: &[u8]) -> usize
    ensures { WroteNear 256 out.old 0 (chart_text i (twoBytes r.now 2)) out.new result }
{
    let next = put_named(out, 0, b"chart ", i);
    put_named(out, next, b": initial state ", two(r, 2))
}

pub fn put_state(out: &mut [u8], i: u32, r: &[u8]) -> usize
    ensures { WroteNear 256 out.old 0 (state_text i (byte r.now 1)) out.new result }
{
    let next = put_named(out, 0, b"state ", i);
    put_named(out, next, b": chart ", one(r, 1))
}

#[tactic(auto, unfolding(prelude::specs::Lists::case_of))]
fn put_trigger(out: &mut [u8], at: usize, r: &[u8]) -> usize
    requires { at < 2 ^ 18 }
    ensures { WroteNear 52 out.old at (trigger_text (read_transition r.now).trigger) out.new result }
{
    match byte_at(r, 6) {
        1 => put_named(out, at, b", event ", one(r, 7)),
        2 => put_measured(out, at, b", after ", u32_at(r, 8), b" ms"),
        3 => put_measured(out, at, b", every ", u32_at(r, 8), b" ms"),
        _ => put_word(out, at, b", always"),
    }
}

pub fn put_transition(out: &mut [u8], i: u32, r: &[u8]) -> usize
    ensures { WroteNear 256 out.old 0 (transition_text i (read_transition r.now)) out.new result }
{
    let source = put_named(out, 0, b"transition ", i);
    let target = put_named(out, source, b": state ", two(r, 2));
    let priority = put_named(out, target, b" to state ", two(r, 4));
    let trigger = put_named(out, priority, b", priority ", one(r, 1));
    let guard = put_trigger(out, trigger, r);
    put_guard(out, guard, u16_at(r, 12))
}

fn put_waiting(out: &mut [u8], at: usize, r: &[u8]) -> usize
    requires { at < 2 ^ 18 }
    ensures { WroteNear 84 out.old at (waiting_text (twoBytes r.now 2) (four r.now 12)) out.new result }
{
    let every = put_named(out, at, b": waiting in state ", two(r, 2));
    put_measured(out, every, b", every ", u32_at(r, 12), b" ms")
}

fn put_owner(out: &mut [u8], at: usize, r: &[u8]) -> usize
    requires { at < 2 ^ 18 }
    ensures { WroteNear 84 out.old at (owner_text (byte r.now 1) (twoBytes r.now 2) (four r.now 12)) out.new result }
{
    match byte_at(r, 1) {
        1 => put_named(out, at, b": entry of state ", two(r, 2)),
        2 => put_named(out, at, b": exit of state ", two(r, 2)),
        4 => put_waiting(out, at, r),
        _ => put_named(out, at, b": transition ", two(r, 2)),
    }
}

pub fn put_action(out: &mut [u8], i: u32, r: &[u8]) -> usize
    ensures { WroteNear 256 out.old 0 (action_text i r.now) out.new result }
{
    let owner = put_named(out, 0, b"action ", i);
    let deed = put_owner(out, owner, r);
    put_conditional(
        out,
        deed,
        u16_at(r, 8),
        deed_by(byte_at(r, 4), byte_at(r, 5), u16_at(r, 6)),
    )
}
