// The place of a pile in a book, by its number.
ghost use Rattle.std.specs.Prelude.{◌≡◌, IfOk};
ghost use Rattle.rules.specs.Book.{desk_answer, place};
ghost use Rattle.refusal.specs.Answers.{answered};

use crate::contents::place_of;
use crate::readable::book_answer;
use layout::head::head_of;
use refusal::Refusal;

// The pile's place in the contents; the book's own refusal, 11 where it does not have the desk, 10 where it does not have the pile. Every book has desk 0.
#[tactic(auto, using(crate::proofs::Lines::find_lines), unfolding(rules::specs::Book::desk_answer, rules::specs::Book::absent, rules::specs::Book::place))]
pub(crate) fn find(book: &[u8], desk: u8, number: u16) -> Result<u8, Refusal>
    ensures answer { answered result ≡ desk_answer desk book.now number }
    ensures place { IfOk result (λ k. k ≡ place book.now number) }
{
    book_answer(book)?;
    let head = head_of(book);
    if head.desks <= desk {
        return Err(Refusal::DeskAbsent);
    }
    place_of(book, head.piles, number).ok_or(Refusal::PileAbsent)
}
