// The translator.
ghost use Rattle.std.specs.Prelude.{◌≡◌};
ghost use Rattle.model.specs.Calls.{numbered};
ghost use Rattle.model.specs.Translation.{translate};
ghost use Rattle.answers.specs.Answers.{count_code};

use crate::sizes::size_code;

// The length of the twin's file, or minus the refusal's number.
#[unsafe(no_mangle)]
pub extern "C" fn charts_translate(s: &[u8], out: &mut [u8]) -> i32
    ensures value { result ≡ numbered count_code (translate s.now out.old).answer }
    ensures out_after { out.new ≡ (translate s.now out.old).lent }
{
    size_code(calls::sets::translate(s, out))
}
