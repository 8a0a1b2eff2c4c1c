// A pile's record as 163 numbers: n, floor, top, 8 draw shares, 8 tip shares, then 8 rows, each tipped, drawn, 8 draw gives, 8 tip gives.
ghost use Rattle.std.specs.Prelude.{◌≡◌, length};
ghost use Rattle.store.specs.Numbers.{fetch_numbers_answer, after_fetch_numbers, store_numbers_answer, after_store_numbers};

use refusal::answer;
use store::{fetch_numbers, store_numbers};

// Fetches a pile into a lent list; refused with 1 to 7 or 10, and last with 8 where the list is shorter than a record. Numbers past the record stay.
pub fn pit_fetch(book: &[u8], pile: u16, record: &mut [u32]) -> u8
    ensures answer { result ≡ fetch_numbers_answer book.now pile (length «record».old) }
    ensures record { «record».new ≡ after_fetch_numbers book.now pile «record».old }
{
    answer(fetch_numbers(book, pile, record))
}

// Stores a list as the record of a pile; refused with 1 to 7 or 10 for the book, then 3 where the list has another length than a record, then 2, 5, 6 or 7
// for the record, then 30.
pub fn pit_store(book: &mut [u8], pile: u16, record: &[u32]) -> u8
    ensures answer { result ≡ store_numbers_answer book.old pile «record».now }
    ensures book { book.new ≡ after_store_numbers book.old pile «record».now }
{
    answer(store_numbers(book, pile, record))
}
