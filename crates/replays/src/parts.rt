// The line of a part's turn: a chart's, or an automaton's.
ghost use Rattle.std.specs.Prelude.{◌+◌, ◌≤◌, ◌<◌, ◌^◌, get_or, take};
ghost use Rattle.answers.specs.Answers.{answer_of};
ghost use Rattle.records.specs.Wrote.{Wrote};
ghost use Rattle.replays.specs.Played.{answer_text};

use answers::Answer;
use lines::put_bounded_line;
use records::sizes::{Places, Variables};

// Its line from `at` on, in 482 bytes at most. Time has none, nor has a turn that is not taken.
pub fn tell(
    out: &mut [u8],
    at: usize,
    cycle: u32,
    part: u32,
    answer: Answer,
    places: &Places,
    variables: &Variables,
    count: u16,
) -> usize
    requires { (at < 2 ^ 59) × (part < 8) × (count ≤ 64) }
    ensures { Wrote out.old at (answer_text cycle part (answer_of answer) (get_or places.now part 0) (take count variables.now)) out.new result × (result ≤ at + 482) }
{
    let place = places[part as usize];
    let chosen = match answer {
        Answer::Taken(t) => Some(t),
        Answer::Idle => None,
        Answer::Time | Answer::Fault(_) | Answer::Refused(_) => return at,
    };
    put_bounded_line(out, at, cycle, part, chosen, place, variables, count)
}
