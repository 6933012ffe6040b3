// Refusal 25: waiting actions of one state with different milliseconds.
ghost use Rattle.std.specs.Prelude.{◌≡◌, true, not, cond, ◌||◌, ◌<◌, eqb};
ghost use Rattle.model.specs.Limits.{most_states};
ghost use Rattle.model.specs.ChartSet.{read_charts};
ghost use Rattle.model.specs.ChartFile as file;
ghost use Rattle.chart_records.specs.Shape.{IsShape};
ghost use Rattle.chart_records.specs.Places.{place_at, wait_at};
ghost use Rattle.chart_files.specs.Waits.{fits_wait, note_wait};

use chart_records::Shape;
use chart_records::fields::{owner_of, place_of, wait_of};
use records::sizes::STATES;

// Whether a waiting action's milliseconds are those of its state's first, which is noted; 0 stands for none so far: none that ticks has 0, and an Option
// would double what each check clears.
fn note_wait(first: &mut [u32; STATES], state: usize, ms: u32) -> bool
    requires { state < most_states }
    ensures { (result ≡ fits_wait first.old (state, ms)) × (first.new ≡ note_wait first.old (state, ms)) }
{
    let known = first[state];
    if known == 0 {
        first[state] = ms;
        return true;
    }
    known == ms
}

// An action of another place passes.
fn wait_fits(s: &[u8], shape: Shape, i: u16, first: &mut [u32; STATES]) -> bool
    requires { place_at s.now shape i ≡ 4 → (wait_at s.now shape i).0 < most_states }
    ensures { (result ≡ (not (eqb (place_at s.now shape i) 4) || fits_wait first.old (wait_at s.now shape i)))
        × (first.new ≡ cond (eqb (place_at s.now shape i) 4) (note_wait first.old (wait_at s.now shape i)) first.old) }
{
    if place_of(s, shape, i) != 4 {
        return true;
    }
    let state = owner_of(s, shape, i) as usize;
    note_wait(first, state, wait_of(s, shape, i))
}

// Of a framed file whose numbers name things and whose waiting actions tick, so that none has 0 milliseconds. Each is noted on the way, so that `all` would
// need a closure that changes what it borrows.
pub fn waits_alike(s: &[u8], shape: Shape) -> bool
    requires { IsShape s.now shape × (file.all_named (read_charts s.now) ≡ true) × (file.all_ticking (read_charts s.now) ≡ true) }
    ensures { result ≡ file.wait_alike (read_charts s.now) }
{
    let mut first = [0u32; STATES];
    for i in 0..shape.actions {
        if !wait_fits(s, shape, i, &mut first) {
            return false;
        }
    }
    true
}
