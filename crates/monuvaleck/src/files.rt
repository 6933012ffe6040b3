// The readers.
ghost use Rattle.std.specs.Prelude.{◌≡◌};
ghost use Rattle.model.specs.Calls.{chart_sets, automata_tables, check, numbered};
ghost use Rattle.answers.specs.Answers.{done_code};

use answers::refused_code;

// 0 where a chart set is accepted.
#[unsafe(no_mangle)]
pub extern "C" fn charts_check(s: &[u8]) -> i32
    ensures { result ≡ numbered done_code (check chart_sets s.now) }
{
    chart_files::check(s).map_or_else(refused_code, |_shape| 0)
}

// 0 where a table of automata is accepted.
#[unsafe(no_mangle)]
pub extern "C" fn automata_check(s: &[u8]) -> i32
    ensures { result ≡ numbered done_code (check automata_tables s.now) }
{
    automata_files::check(s).map_or_else(refused_code, |_shape| 0)
}
