// The framing of files of 16-byte records: refusals 1 to 3.
#![tactic(auto)]

ghost use Rattle.std.specs.Prelude.{◌≡◌, map, ◌+◌, ◌-◌, ◌*◌, ◌/◌, ◌≤◌, ◌<◌, ◌^◌, length, take};
ghost use Rattle.prelude.specs.Lists.{upto};
ghost use Rattle.framing.specs.Frame.{IsFrame, IsRun, IsTally, exceeds, sum_to};

use records::refusals::Refusal;

// Of the nine kinds from a format's first on: how many records, and the number of the first record.
#[derive(Clone, Copy)]
pub struct Frame {
    pub counts: [usize; 9],
    pub firsts: [usize; 9],
}

// A format has nine kinds at most.
fn kinds_of(most: &[u16]) -> usize
    ensures { (result ≡ length (take 9 most.now)) × (result ≤ 9) × (result ≤ length most.now) }
{
    most.len().min(9)
}

// The end of the run of a kind's records that starts at a record.
fn run_end(s: &[u8], start: usize, kind: usize) -> usize
    requires { start ≤ length s.now / 16 }
    ensures { IsRun s.now start kind result }
{
    let end = s.len() / 16;
    (start..end)
        .find(|&i| (s[16 * i] as usize) != kind)
        .unwrap_or(end)
}

// How many records of each kind, by one pass: a run of each kind in turn. None where records are left: those are of no kind, or of one that had its run.
fn tally_of(s: &[u8], first: u8, most: &[u16]) -> Option<[usize; 9]>
    ensures { IsTally first most.now s.now result }
{
    let mut counts = [0usize; 9];
    let mut i: usize = 0;
    for k in 0..kinds_of(most) {
        let end = run_end(s, i, (first as usize) + k);
        counts[k] = end - i;
        i = end;
    }
    if i < s.len() / 16 { None } else { Some(counts) }
}

// A file must have one of its first kind, and of each kind at most its limit.
fn wrong_amounts(counts: [usize; 9], most: &[u16]) -> bool
    ensures { result ≡ exceeds counts most.now }
{
    counts[0] == 0 || (0..kinds_of(most)).any(|k| (most[k] as usize) < counts[k])
}

// The kinds' records stand one kind after the other, so a kind's first record has the sum of the counts before it.
fn sums(counts: [usize; 9]) -> [usize; 9]
    requires { sum_to 9 counts < 2 ^ 64 }
    ensures { result ≡ map (λ j. sum_to j counts) (upto 9) }
{
    let mut firsts = [0usize; 9];
    let mut sum: usize = 0;
    for k in 0..9 {
        firsts[k] = sum;
        sum += counts[k];
    }
    firsts
}

// The framing of a file: its kinds are those from `first` on, with the limits `most`.
pub fn frame_of(s: &[u8], first: u8, most: &[u16]) -> Result<Frame, Refusal>
    ensures { IsFrame first most.now s.now result }
{
    if s.len() % 16 != 0 {
        return Err(Refusal::OddLength);
    }
    let counts = tally_of(s, first, most).ok_or(Refusal::UnorderedKinds)?;
    if wrong_amounts(counts, most) {
        return Err(Refusal::WrongAmounts);
    }
    let firsts = sums(counts);
    Ok(Frame { counts, firsts })
}
