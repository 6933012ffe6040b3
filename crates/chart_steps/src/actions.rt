// The key of an action's owner, its guard, and its waiting time. Its record is in an accepted file, so that reads need no test of the length, as those of
// chart_records::fields do.
ghost use Rattle.std.specs.Prelude.{◌≡◌, ◌<◌};
ghost use Rattle.model.specs.ChartSet.{read_plus_one};
ghost use Rattle.chart_records.specs.Places.{first_action, action_at, wait_at};
ghost use Rattle.chart_records.specs.Accepted.{Accepted};
ghost use Rattle.chart_steps.specs.Tables.{key_for, key_at, KeyedOwner, action_keys};

use chart_records::Shape;
use chart_records::fields::{first_variable, owner_of, place_of};
use records::sizes::{CROSSING_KEYS, EXIT_KEYS, WAITING_KEYS};
use records::{u16_within, u32_within};

// The place is the number in the action's record: an enum of places would say each number once more.
#[tactic(auto, unfolding(prelude::specs::Lists::case_of))]
fn key_for(place: u8, owner: u16) -> u16
    requires { KeyedOwner place owner }
    ensures { result ≡ key_for place owner }
{
    match place {
        2 => EXIT_KEYS + owner,
        3 => CROSSING_KEYS + owner,
        4 => WAITING_KEYS + owner,
        _ => owner,
    }
}

pub fn key_of(s: &[u8], shape: Shape, a: u16) -> u16
    requires { Accepted s.now shape × (a < shape.actions) }
    ensures { (result ≡ key_at s.now shape a) × (result < action_keys) }
{
    key_for(place_of(s, shape, a), owner_of(s, shape, a))
}

pub fn first_action(shape: Shape) -> usize
    ensures { result ≡ first_action shape }
{
    first_variable(shape) + (shape.variables as usize) + (shape.nodes as usize)
}

// The guard of action a, as its node plus one; 0 for none.
pub fn condition_of(s: &[u8], shape: Shape, a: u16) -> u16
    requires { Accepted s.now shape × (a < shape.actions) }
    ensures { read_plus_one result ≡ (action_at s.now shape a).1.guard }
{
    u16_within(s, 16 * (first_action(shape) + (a as usize)) + 8)
}

// The milliseconds of action a, if it is a waiting one.
pub fn wait_of(s: &[u8], shape: Shape, a: u16) -> u32
    requires { Accepted s.now shape × (a < shape.actions) }
    ensures { result ≡ (wait_at s.now shape a).1 }
{
    u32_within(s, 16 * (first_action(shape) + (a as usize)) + 12)
}
