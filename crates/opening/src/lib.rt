// Opening a book in a lent buffer, from a list of numbers: for each pile its number, floor, top and shares. Tallies start at 0.
#![tactic(auto)]

mod front;
mod given;
mod judge;

ghost use Rattle.std.specs.Prelude.{◌≡◌, length};
ghost use Rattle.rules.specs.Opening.{opening_answer, after_opening};
ghost use Rattle.refusal.specs.Answers.{answered};

use front::{put_bodies, put_front};
use judge::accepted;
use refusal::Refusal;

// Opens a book of n desks and p piles; refused with 2, 3, 4, 5 or 8, and then nothing is written. Bytes past the book stay.
pub fn open(n: u8, p: u8, numbers: &[u32], out: &mut [u8]) -> Result<(), Refusal>
    ensures answer { answered result ≡ opening_answer n p numbers.now (length out.old) }
    ensures out { out.new ≡ after_opening n p numbers.now out.old }
{
    let given = accepted(n, p, numbers, out.len())?;
    put_front(out, &given);
    put_bodies(out, &given);
    Ok(())
}
