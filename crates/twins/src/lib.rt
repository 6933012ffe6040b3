// Demand 3 of what the functions really answer and leave: the same calls on a set and on its twin, compared.
#![tactic(auto)]

ghost use Rattle.std.specs.Prelude.{◌≡◌};
ghost use Rattle.model.specs.ChartSet.{read_charts};
ghost use Rattle.model.specs.AutomataTable.{read_automata};
ghost use Rattle.model.specs.Translation.{twin as twin-of, twin_bytes, translate as translation};
ghost use Rattle.chart_records.specs.Accepted as of-charts;
ghost use Rattle.automata_records.specs.Accepted as of-automata;
ghost use Rattle.records.specs.RefusalOf.{refusal_of};
ghost use Rattle.twins.specs.Compared.{comparison_of, called_both, played_both, moved_both, nothing_compared, compared};

pub mod both;

use alike::outcomes::counts_alike;
use alike::runs::runs_alike;
use both::{call_both, is_turn};
use records::refusals::Refusal;
use records::sizes::{CHARTS, CLOCKS, VARIABLES};

// All of so many calls were alike; why there was nothing to compare; the first call that was not alike. Three outcomes, of which the two that compared are no
// errors, so that this is no Result.
#[derive(Clone, Copy)]
pub enum Verdict {
    Alike(usize),
    Refused(Refusal),
    Differ(usize),
}

// The verdict, and the runs that the calls left.
#[derive(Clone, Copy)]
pub struct Compared {
    pub verdict: Verdict,
    pub run: chart_runs::Run,
    pub twin: automata::runs::Run,
}

// Where nothing was compared the runs are zeros, at position 1.
fn nothing_compared(w: Refusal) -> Compared
    ensures { comparison_of result ≡ nothing_compared (refusal_of w) }
{
    let run = chart_runs::run_between_cycles([0u16; CHARTS], [0u32; CHARTS], [0i16; VARIABLES], 0);
    let locations = [0u16; CHARTS];
    let clocks = [0u16; CLOCKS];
    let variables = [0i16; VARIABLES];
    let twin = automata::runs::run_in(&locations, &clocks, &variables, 0, 1, 0);
    Compared {
        verdict: Verdict::Refused(w),
        run,
        twin,
    }
}

// The calls, from fresh runs on, which are compared too.
fn calls_compared(
    s: &[u8],
    shape: chart_records::Shape,
    t: &[u8],
    table: automata_records::Shape,
    kinds: &[u8],
    masks: &[u32],
) -> Compared
    requires { of-charts.Accepted s.now shape × of-automata.Accepted t.now table × (read_automata t.now ≡ twin-of (read_charts s.now)) }
    ensures { comparison_of result ≡ called_both s.now t.now masks.now kinds.now }
{
    let mut run = chart_runs::start(s, shape);
    let mut twin = automata::runs::start(t, table);
    if !runs_alike(t, table, run, twin) {
        return Compared {
            verdict: Verdict::Differ(0),
            run,
            twin,
        };
    }
    for (k, events) in masks.iter().enumerate() {
        let turn = is_turn(kinds, k);
        let both = call_both(s, shape, t, table, run, twin, turn, *events);
        if !both.alike {
            return Compared {
                verdict: Verdict::Differ(k),
                run,
                twin,
            };
        }
        let left = both.run;
        let twin_left = both.twin;
        run = left;
        twin = twin_left;
    }
    Compared {
        verdict: Verdict::Alike(masks.len()),
        run,
        twin,
    }
}

// Many cycles on both sides, from fresh runs on.
fn plays_compared(
    s: &[u8],
    shape: chart_records::Shape,
    t: &[u8],
    table: automata_records::Shape,
    masks: &[u32],
) -> Compared
    requires { of-charts.Accepted s.now shape × of-automata.Accepted t.now table × (read_automata t.now ≡ twin-of (read_charts s.now)) }
    ensures { comparison_of result ≡ played_both s.now t.now masks.now }
{
    let run = chart_runs::start(s, shape);
    let twin = automata::runs::start(t, table);
    let played = charts::plays::play_in_place(s, shape, run, masks);
    let other = automata::plays::play_in_place(t, table, twin, masks);
    let count = played.answer;
    let reply = other.answer;
    let left = played.run;
    let twin_left = other.run;
    let verdict = if counts_alike(count, reply) & runs_alike(t, table, left, twin_left) {
        Verdict::Alike(masks.len())
    } else {
        Verdict::Differ(0)
    };
    Compared {
        verdict,
        run: left,
        twin: twin_left,
    }
}

// Cycles played, or calls one by one. A closure in place of the truth would have its clause, by `moved_both`, in each function that it passes through.
fn table_compared(
    s: &[u8],
    shape: chart_records::Shape,
    t: &[u8],
    table: automata_records::Shape,
    plays: bool,
    kinds: &[u8],
    masks: &[u32],
) -> Compared
    requires { of-charts.Accepted s.now shape × of-automata.Accepted t.now table × (read_automata t.now ≡ twin-of (read_charts s.now)) }
    ensures { comparison_of result ≡ moved_both s.now t.now masks.now plays kinds.now }
{
    if plays {
        plays_compared(s, shape, t, table, masks)
    } else {
        calls_compared(s, shape, t, table, kinds, masks)
    }
}

// The twin's file is read back first.
fn twin_compared(
    s: &[u8],
    shape: chart_records::Shape,
    t: &[u8],
    plays: bool,
    kinds: &[u8],
    masks: &[u32],
) -> Compared
    requires { of-charts.Accepted s.now shape × (t.now ≡ twin_bytes s.now) }
    ensures { comparison_of result ≡ moved_both s.now t.now masks.now plays kinds.now }
{
    match automata_files::check(t) {
        Err(w) => nothing_compared(w),
        Ok(table) => table_compared(s, shape, t, table, plays, kinds, masks),
    }
}

fn set_compared(
    s: &[u8],
    shape: chart_records::Shape,
    plays: bool,
    kinds: &[u8],
    masks: &[u32],
    twin: &mut [u8],
) -> Compared
    requires { of-charts.Accepted s.now shape }
    ensures { (comparison_of result ≡ compared (translation s.now twin.old).answer (moved_both s.now (twin_bytes s.now) masks.now plays kinds.now)) × (twin.new ≡ (translation s.now twin.old).lent) }
{
    match translation::translate(s, shape, twin) {
        Err(w) => nothing_compared(w),
        Ok(n) => twin_compared(s, shape, &twin[..n], plays, kinds, masks),
    }
}

fn file_compared(s: &[u8], plays: bool, kinds: &[u8], masks: &[u32], twin: &mut [u8]) -> Compared
    ensures { (comparison_of result ≡ compared (translation s.now twin.old).answer (moved_both s.now (twin_bytes s.now) masks.now plays kinds.now)) × (twin.new ≡ (translation s.now twin.old).lent) }
{
    match chart_files::check(s) {
        Err(w) => nothing_compared(w),
        Ok(shape) => set_compared(s, shape, plays, kinds, masks, twin),
    }
}

// A set, its translation into a lent buffer, and the same calls on both, from fresh runs on: whether they were alike, and the runs that they left. Call k has the
// events of masks[k]; it is a turn where kinds[k] is 0, else a cycle.
pub fn compare(s: &[u8], kinds: &[u8], masks: &[u32], twin: &mut [u8]) -> Compared
    ensures { (comparison_of result ≡ compared (translation s.now twin.old).answer (called_both s.now (twin_bytes s.now) masks.now kinds.now)) × (twin.new ≡ (translation s.now twin.old).lent) }
{
    file_compared(s, false, kinds, masks, twin)
}

// The same with cycles played, one for each mask: as many are done, or the first fails alike, and they leave runs that correspond.
pub fn compare_plays(s: &[u8], masks: &[u32], twin: &mut [u8]) -> Compared
    ensures { (comparison_of result ≡ compared (translation s.now twin.old).answer (played_both s.now (twin_bytes s.now) masks.now)) × (twin.new ≡ (translation s.now twin.old).lent) }
{
    let kinds = [1u8; 1];
    file_compared(s, true, &kinds, masks, twin)
}
