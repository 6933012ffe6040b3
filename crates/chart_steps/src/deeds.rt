// Actions, one by one and in the order of a key's chain: the events after them or the fault as one number, as in machines::deeds.
ghost use Rattle.std.specs.Prelude.{◌≡◌, ◌<◌};
ghost use Rattle.model.specs.Runs.{action};
ghost use Rattle.model.specs.ChartSet.{read_charts};
ghost use Rattle.chart_records.specs.Places.{action_at};
ghost use Rattle.machines.specs.Worlds.{Moment, world_in, world_by, IsCode};
ghost use Rattle.chart_records.specs.Accepted.{Accepted};
ghost use Rattle.chart_steps.specs.Tables.{HasActions, deeds_of_three, action_keys};

use super::actions::{condition_of, first_action};
use super::values::values_of;
use chart_records::Shape;
use machines::deeds::do_guarded;
use records::sizes::{ActionHeads, ActionLinks, Variables};
use records::u16_within;

// Action a, if its guard holds.
fn do_action(s: &[u8], shape: Shape, a: u16, vars: &mut Variables, events: u32) -> u64
    requires { Accepted s.now shape × (a < shape.actions) }
    ensures { ((m : Moment) → world_by result vars.new m ≡ action (read_charts s.now).nodes (read_charts s.now).variables (action_at s.now shape a).1 (world_in vars.old events m)) × IsCode result }
{
    let at = 16 * (first_action(shape) + (a as usize));
    let code = s[at + 4];
    let x = s[at + 5];
    let n = u16_within(s, at + 6);
    let guard = condition_of(s, shape, a);
    do_guarded(s, values_of(shape), guard, code, x, n, vars, events)
}

// The deeds of three keys, one key after the other, each in file order and seeing the last; a chain ends in 65,535. One loop over the chains, and none for each
// key, so that a deed is done at one place of the code (docs/DECISIONS.md, "One loop for turns").
pub fn do_deeds(
    s: &[u8],
    shape: Shape,
    first: &ActionHeads,
    next: &ActionLinks,
    leaving: u16,
    crossing: u16,
    entering: u16,
    vars: &mut Variables,
    events: u32,
) -> u64
    requires { Accepted s.now shape × HasActions s.now shape first.now next.now × (leaving < action_keys) × (crossing < action_keys) × (entering < action_keys) }
    ensures { ((m : Moment) → world_by result vars.new m ≡ deeds_of_three s.now shape leaving crossing entering (world_in vars.old events m)) × IsCode result }
{
    let mut present = events;
    let mut k: u8 = 0;
    let mut a = first[leaving as usize];
    loop {
        if a == 65535 {
            if k == 2 {
                return present as u64;
            }
            k += 1;
            let key = if k == 1 { crossing } else { entering };
            a = first[key as usize];
        } else {
            let after = do_action(s, shape, a, vars, present);
            if 4294967295 < after {
                return after;
            }
            present = after as u32;
            a = next[a as usize];
        }
    }
}
