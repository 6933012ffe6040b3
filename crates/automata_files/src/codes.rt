// Refusal 5, read for an automata file: codes and ranges of a record.
ghost use Rattle.std.specs.Prelude.{◌≡◌, true, [], ◌∷◌};
ghost use Rattle.prelude.specs.Lists.{case_of};
ghost use Rattle.model.specs.ChartFile.{is_event};
ghost use Rattle.model.specs.AutomataFile.{literal_in_code, table_in_code};

use record_tests::codes::{deed_in_code, node_in_code, variable_in_code};
use records::byte_at;
use records::sizes::LAST_EVENT;

#[tactic(auto, unfolding(prelude::specs::Lists::case_of))]
fn literal_trigger_in_code(code: u8, event: u8) -> bool
    ensures { result ≡ case_of code ((1, is_event event) ∷ []) true }
{
    match code {
        1 => event <= LAST_EVENT,
        _ => true,
    }
}

fn literal_in_code(r: &[u8]) -> bool
    ensures { result ≡ literal_in_code r.now }
{
    let sign = byte_at(r, 1);
    let code = byte_at(r, 4);
    (1 <= sign) & (sign <= 2) & (code <= 2) & literal_trigger_in_code(code, byte_at(r, 5))
}

#[tactic(auto, unfolding(prelude::specs::Lists::case_of))]
pub fn in_code(r: &[u8]) -> bool
    ensures { result ≡ table_in_code r.now }
{
    let code = byte_at(r, 1);
    match byte_at(r, 0) {
        35 => byte_at(r, 6) <= 1,
        36 => literal_in_code(r),
        37 => (2 <= code) & (code <= 3),
        38 => variable_in_code(r),
        39 => node_in_code(r),
        40 => deed_in_code(code, byte_at(r, 4)),
        _ => true,
    }
}
