// Opening a book, and checking one.
ghost use Rattle.std.specs.Prelude.{◌≡◌, length};
ghost use Rattle.rules.specs.Opening.{opening_answer, after_opening};
ghost use Rattle.rules.specs.Book.{book_answer};

use book::check;
use opening::open;
use refusal::answer;

// Opens a book in a lent buffer, from a list of each pile's number, floor, top and shares; refused with 2, 3, 4, 5 or 8.
pub fn pit_open(desks: u8, piles: u8, list: &[u32], out: &mut [u8]) -> u8
    ensures answer { result ≡ opening_answer desks piles list.now (length out.old) }
    ensures out { out.new ≡ after_opening desks piles list.now out.old }
{
    answer(open(desks, piles, list, out))
}

// The book's own refusal, 1 to 7, or 0.
pub fn pit_check(book: &[u8]) -> u8
    ensures { result ≡ book_answer book.now }
{
    answer(check(book))
}
