// Is a book readable? The first refusal of its bytes and bodies.
ghost use Rattle.std.specs.Prelude.{◌≡◌};
ghost use Rattle.rules.specs.Refusals.{first};
ghost use Rattle.rules.specs.Pile.{pile_answer};
ghost use Rattle.rules.specs.Layout.{body_view, body_at};
ghost use Rattle.rules.specs.Book.{book_answer};
ghost use Rattle.layout.specs.Positions.{as_head};
ghost use Rattle.book.specs.Inner.{BookSized};
ghost use Rattle.refusal.specs.Answers.{answered};

use crate::contents::contents_sound;
use audit::check_bodies;
use layout::head::{HEAD, Head, body_at, front_length, head_of, head_sound};
use refusal::Refusal;

// The first refusal of a body, in file order.
#[tactic(auto, using(crate::proofs::Lines::bodies_lines), unfolding(audit::specs::Audits::bodies_answer, rules::specs::Layout::body_at, rules::specs::Layout::book_length))]
pub(crate) fn bodies_answer(book: &[u8], head: Head) -> Result<(), Refusal>
    requires { BookSized (as_head head) book.now }
    ensures { answered result ≡ first head.piles (λ k. pile_answer head.desks (body_view head.desks book.now (body_at (as_head head) k))) }
{
    check_bodies(
        book,
        front_length(head),
        head.desks,
        usize::from(head.piles),
    )
}

// A book's own answer: head, length and contents, and then its bodies.
#[tactic(auto, using(crate::proofs::Lines::book_lines), unfolding(rules::specs::Book::book_answer, rules::specs::Layout::pile_of))]
pub(crate) fn book_answer(book: &[u8]) -> Result<(), Refusal>
    ensures { answered result ≡ book_answer book.now }
{
    if book.len() < HEAD {
        return Err(Refusal::BookShort);
    }
    let head = head_of(book);
    if !head_sound(head) {
        return Err(Refusal::HeadWrong);
    }
    if book.len() != body_at(head, head.piles) {
        return Err(Refusal::LengthWrong);
    }
    if !contents_sound(book, head) {
        return Err(Refusal::ContentsWrong);
    }
    bodies_answer(book, head)
}
