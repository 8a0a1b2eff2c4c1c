// A pile out of a book and into it: as a record, and as the list of a record's numbers.
#![tactic(auto)]

mod same;

ghost use Rattle.std.specs.Prelude.{◌≡◌, length, IfOk};
ghost use Rattle.rules.specs.Book.{fetch_answer};
ghost use Rattle.rules.specs.Record.{fetched, store_answer, after_store};
ghost use Rattle.pile.specs.View.{as_record};
ghost use Rattle.store.specs.Numbers.{fetch_numbers_answer, after_fetch_numbers, store_numbers_answer, after_store_numbers};
ghost use Rattle.refusal.specs.Answers.{answered};

use book::seek;
use padding::{check_record, pack, pad};
use pile::Pile;
use refusal::Refusal;
use same::same_opening;

// The pile of a number, as a record; refused with 1 to 7 or 10.
#[tactic(auto, using(crate::proofs::Fetched::fetches))]
pub fn fetch(book: &[u8], number: u16) -> Result<Pile, Refusal>
    ensures answer { answered result ≡ fetch_answer book.now number }
    ensures pile { IfOk result (λ pile. as_record pile ≡ fetched book.now number) }
{
    let body = seek(book, 0, number)?;
    Ok(Pile::of_body(book, body.start as usize, body.desks))
}

// Stores a record as the body of its pile; refused with 1 to 7 or 10 for the book, then 2, 5, 6 or 7 for the record, then 30 where n or opening differs.
#[tactic(auto, using(crate::proofs::Lists::record_stored, crate::proofs::Lists::record_left))]
pub fn store(book: &mut [u8], number: u16, pile: Pile) -> Result<(), Refusal>
    ensures answer { answered result ≡ store_answer book.old number (as_record pile) }
    ensures book { book.new ≡ after_store book.old number (as_record pile) }
{
    let numbers = pile.numbers();
    store_numbers(book, number, &numbers)
}

// Fetches a pile into a lent list; refused with 1 to 7 or 10, and last with 8 where the list is shorter than a record. Numbers past the record stay.
#[tactic(auto, using(crate::proofs::Fetched::fetches), unfolding(crate::specs::Numbers::fetch_numbers_answer, crate::specs::Numbers::after_fetch_numbers))]
pub fn fetch_numbers(book: &[u8], number: u16, out: &mut [u32]) -> Result<(), Refusal>
    ensures answer { answered result ≡ fetch_numbers_answer book.now number (length out.old) }
    ensures out { out.new ≡ after_fetch_numbers book.now number out.old }
{
    // By `match` the number of desks is read by itself, so that the compiler sees in `pad` that there are 8 at most; `?` would hand on both numbers as one.
    match seek(book, 0, number) {
        Ok(found) => pad(book, found.start as usize, found.desks, out),
        Err(refusal) => Err(refusal),
    }
}

// Stores a list as the record of a pile; refused with 1 to 7 or 10 for the book, then 3 where the list has another length than a record, then 2, 5, 6 or 7
// for the record, then 30 where n or opening differs.
#[tactic(auto, using(crate::proofs::Lists::stores), unfolding(crate::specs::Numbers::after_store_numbers))]
pub fn store_numbers(book: &mut [u8], number: u16, numbers: &[u32]) -> Result<(), Refusal>
    ensures answer { answered result ≡ store_numbers_answer book.old number numbers.now }
    ensures book { book.new ≡ after_store_numbers book.old number numbers.now }
{
    let found = seek(book, 0, number)?;
    check_record(numbers)?;
    let n = found.desks;
    let start = found.start as usize;
    if numbers[0] != u32::from(n) || !same_opening(book, start, numbers, n) {
        return Err(Refusal::OpeningDiffers);
    }
    pack(numbers, book, start)
}
