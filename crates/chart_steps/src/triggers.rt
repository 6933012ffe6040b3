// Whether a transition's trigger holds.
ghost use Rattle.std.specs.Prelude.{◌≡◌, ◌+◌, ◌*◌, ◌<◌, length};
ghost use Rattle.model.specs.Charts.{triggered};
ghost use Rattle.chart_records.specs.Places.{trigger_in};
ghost use Rattle.chart_steps.specs.Replies.{Holdable};

use machines::deeds::present;
use records::u32_within;
use timings::{after_holds, every_holds, ticks};

// Of the transition that is record n. Its kind is tested as the record has it: an enum of kinds would be told apart once more.
#[tactic(auto, unfolding(prelude::specs::Lists::case_of))]
pub fn triggered(s: &[u8], n: usize, age: u32, events: u32) -> bool
    requires { (16 * n + 15 < length s.now) × Holdable (trigger_in s.now n) }
    ensures { result ≡ triggered (trigger_in s.now n) age events }
{
    let at = 16 * n;
    match s[at + 6] {
        1 => present(s[at + 7], events),
        2 => after_holds(ticks(u32_within(s, at + 8)), age),
        3 => every_holds(ticks(u32_within(s, at + 8)), age),
        _ => true,
    }
}
