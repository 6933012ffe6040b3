// Refusal 5: codes and ranges of a record.
ghost use Rattle.std.specs.Prelude.{◌≡◌, true, [], ◌∷◌};
ghost use Rattle.prelude.specs.Lists.{case_of};
ghost use Rattle.model.specs.ChartFile.{is_event, is_duration, transition_in_code, variable_in_code, node_in_code, deed_in_code, action_in_code, in_code};

use records::sizes::{LAST_EVENT, LAST_PRIORITY, MOST_MILLISECONDS};
use records::{byte_at, i16_at, u32_at};

// The range of milliseconds.
fn is_duration(ms: u32) -> bool
    ensures { result ≡ is_duration ms }
{
    (1 <= ms) & (ms <= MOST_MILLISECONDS)
}

#[tactic(auto, unfolding(prelude::specs::Lists::case_of))]
fn trigger_in_code(code: u8, event: u8, ms: u32) -> bool
    ensures { result ≡ case_of code ((1, is_event event) ∷ (2, is_duration ms) ∷ (3, is_duration ms) ∷ []) true }
{
    match code {
        1 => event <= LAST_EVENT,
        2 | 3 => is_duration(ms),
        _ => true,
    }
}

fn transition_in_code(r: &[u8]) -> bool
    ensures { result ≡ transition_in_code r.now }
{
    let priority = byte_at(r, 1);
    let code = byte_at(r, 6);
    (1 <= priority)
        & (priority <= LAST_PRIORITY)
        & (code <= 3)
        & trigger_in_code(code, byte_at(r, 7), u32_at(r, 8))
}

pub fn variable_in_code(r: &[u8]) -> bool
    ensures { result ≡ variable_in_code r.now }
{
    let start = i16_at(r, 6);
    (i16_at(r, 2) <= start) & (start <= i16_at(r, 4))
}

pub fn node_in_code(r: &[u8]) -> bool
    ensures { result ≡ node_in_code r.now }
{
    let operator = byte_at(r, 1);
    ((1 <= operator) & (operator <= 8)) | ((16 <= operator) & (operator <= 21))
}

#[tactic(auto, unfolding(prelude::specs::Lists::case_of))]
pub fn deed_in_code(code: u8, x: u8) -> bool
    ensures { result ≡ deed_in_code code x }
{
    (1 <= code) & (code <= 2) & ((code != 2) | (x <= LAST_EVENT))
}

#[tactic(auto, unfolding(prelude::specs::Lists::case_of))]
fn action_in_code(r: &[u8]) -> bool
    ensures { result ≡ action_in_code r.now }
{
    let place = byte_at(r, 1);
    (1 <= place)
        & (place <= 4)
        & deed_in_code(byte_at(r, 4), byte_at(r, 5))
        & ((place != 4) | is_duration(u32_at(r, 12)))
}

#[tactic(auto, unfolding(prelude::specs::Lists::case_of))]
pub fn in_code(r: &[u8]) -> bool
    ensures { result ≡ in_code r.now }
{
    match byte_at(r, 0) {
        3 => transition_in_code(r),
        4 => variable_in_code(r),
        5 => node_in_code(r),
        6 => action_in_code(r),
        _ => true,
    }
}
