// The trace-back of a twin's path.
ghost use Rattle.std.specs.Prelude.{◌≡◌};
ghost use Rattle.model.specs.Calls.{numbered};
ghost use Rattle.model.specs.PathBack.{path_back};
ghost use Rattle.answers.specs.Answers.{count_code};

use crate::sizes::size_code;

// The number of rows, or minus the refusal's.
#[unsafe(no_mangle)]
pub extern "C" fn path_back(s: &[u8], path: &[u16], rows: &mut [u32]) -> i32
    ensures value { result ≡ numbered count_code (path_back s.now path.now rows.old).answer }
    ensures rows_after { rows.new ≡ (path_back s.now path.now rows.old).lent }
{
    size_code(calls::sets::path_back(s, path, rows))
}
