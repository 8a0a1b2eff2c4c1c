// What a call tells another language: its number, and its value into a lent place.
ghost use Rattle.std.specs.Prelude.{◌≡◌};
ghost use Rattle.std.specs.Result.{result_unwrap_or};
ghost use Rattle.refusal.specs.Answers.{answered};

use refusal::{Refusal, answer};

// Of a refused call the lent place is neither read nor written.
pub(crate) fn hand_out(told: Result<u32, Refusal>, out: &mut u32) -> u8
    ensures answer { result ≡ answered told }
    ensures out { out.new ≡ result_unwrap_or told out.old }
{
    if let Ok(value) = told {
        *out = value;
    }
    answer(told.map(|_| ()))
}
