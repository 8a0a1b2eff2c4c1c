// The contents of a book, filled into two lists that the caller lends.
ghost use Rattle.std.specs.Prelude.{◌≡◌};
ghost use Rattle.rules.specs.Layout.{pile_number, position};
ghost use Rattle.pitbook.specs.Contents.{lists_answer, filled, after_numbers, after_positions};
ghost use Rattle.pitbook.specs.Inner.{RoomFor};
ghost use Rattle.refusal.specs.Answers.{answered};

use book::check;
use layout::contents::{pile_number, position};
use layout::head::head_of;
use refusal::{Refusal, answer};

// The first p entries of the contents: their pile numbers into one list, their positions into the other.
#[tactic(auto, using(rules::proofs::Loops::Partly::partly_none, rules::proofs::Loops::Partly::partly_next, rules::proofs::Loops::Partly::length_partly))]
fn put_entries(book: &[u8], p: u8, numbers: &mut [u32], positions: &mut [u32])
    requires { RoomFor p numbers.old positions.old }
    ensures numbers { numbers.new ≡ filled p (pile_number book.now) numbers.old }
    ensures positions { positions.new ≡ filled p (position book.now) positions.old }
{
    for k in 0..p {
        let place = usize::from(k);
        numbers[place] = u32::from(pile_number(book, k));
        positions[place] = position(book, k);
    }
}

// Fills both lists, or refuses: with 1 to 7 or, where either list is shorter than the contents, 8.
#[tactic(auto, using(crate::proofs::ContentsLines::contents_read), unfolding(crate::proofs::ContentsLines::open_lists))]
fn fill(book: &[u8], numbers: &mut [u32], positions: &mut [u32]) -> Result<(), Refusal>
    ensures answer { answered result ≡ lists_answer book.now numbers.old positions.old }
    ensures numbers { numbers.new ≡ after_numbers book.now numbers.old positions.old }
    ensures positions { positions.new ≡ after_positions book.now numbers.old positions.old }
{
    check(book)?;
    let p = head_of(book).piles;
    if numbers.len().min(positions.len()) < usize::from(p) {
        return Err(Refusal::BufferShort);
    }
    put_entries(book, p, numbers, positions);
    Ok(())
}

// The contents of a book, in its order; refused with 1 to 7 or, where either list is shorter than the contents, 8. Entries past the contents stay.
pub fn pit_contents(book: &[u8], numbers: &mut [u32], positions: &mut [u32]) -> u8
    ensures answer { result ≡ lists_answer book.now numbers.old positions.old }
    ensures numbers { numbers.new ≡ after_numbers book.now numbers.old positions.old }
    ensures positions { positions.new ≡ after_positions book.now numbers.old positions.old }
{
    answer(fill(book, numbers, positions))
}
