// Lengths and counts, as callers in other languages get them.
ghost use Rattle.std.specs.Prelude.{◌≡◌, ℕ, ◌<◌, ◌^◌};
ghost use Rattle.records.specs.Refusal.{val};
ghost use Rattle.records.specs.RefusalOf.{refusal_of, out_of};
ghost use Rattle.model.specs.Calls.{numbered};
ghost use Rattle.answers.specs.Answers.{count_code};

use answers::refused_code;
use records::refusals::Refusal;

// So many, or minus the refusal's number.
pub fn size_code(answer: Result<usize, Refusal>) -> i32
    requires { (n : ℕ) → out_of refusal_of answer ≡ val n → n < 2 ^ 31 }
    ensures { result ≡ numbered count_code (out_of refusal_of answer) }
{
    match answer {
        Ok(n) => n as i32,
        Err(w) => refused_code(w),
    }
}
