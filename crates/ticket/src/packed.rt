// Packed decimal in a byte slice: two digits a byte, the high digit first.
ghost use Rattle.std.specs.Prelude.{◌≡◌, ◌≤◌, ◌<◌, not, IfOk, length};
ghost use Rattle.rules.specs.Refusals.{◌when◌};
ghost use Rattle.refusal.specs.Answers.{answered};
ghost use Rattle.ticket.specs.Packed.{pair_number, pair_byte, pair_right, packed_number, packed_bytes, digits_right};

use refusal::Refusal;

// The number of a byte's two digits, whatever they are.
fn pair_number(b: u8) -> u8
    ensures { result ≡ pair_number b }
{
    10 * (b / 16) + b % 16
}

// Neither digit is above 9.
#[tactic(auto, unfolding(crate::specs::Packed::pair_right, rules::proofs::Cases::Table::open_loops))]
fn pair_right(b: u8) -> bool
    ensures { result ≡ pair_right b }
{
    b / 16 <= 9 && b % 16 <= 9
}

// The byte of a number of two digits.
fn pair_byte(x: u8) -> u8
    requires { x < 100 }
    ensures { result ≡ pair_byte x }
{
    16 * (x / 10) + x % 10
}

// The number that at most 4 bytes say, in one pass; refused with 33 where a digit is above 9. Right digits keep the number within 2³².
pub(crate) fn unpack(part: &[u8]) -> Result<u32, Refusal>
    requires { length part.now ≤ 4 }
    ensures answer { answered result ≡ 33 when not (digits_right (length part.now) part.now 0) }
    ensures number { IfOk result (λ number. number ≡ packed_number (length part.now) part.now 0) }
{
    let mut number = 0;
    for &byte in part {
        if !pair_right(byte) {
            return Err(Refusal::DigitsWrong);
        }
        number = 100 * number + u32::from(pair_number(byte));
    }
    Ok(number)
}

// Writes a number over all of these bytes, the last two digits first.
#[tactic(auto, using(crate::proofs::Digits::last_first, crate::proofs::Digits::over_all), unfolding(crate::specs::Packed::packed_bytes))]
pub(crate) fn pack(part: &mut [u8], x: u32)
    ensures { part.new ≡ packed_bytes (length part.old) x }
{
    let mut rest = x;
    for k in (0..part.len()).rev() {
        part[k] = pair_byte((rest % 100) as u8);
        rest /= 100;
    }
}
