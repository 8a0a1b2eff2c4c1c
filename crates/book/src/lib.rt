// The book: a file of stockpiles, in a slice of bytes. An entry point that is lent a book checks it first, whole.
#![tactic(auto)]

mod contents;
mod find;
mod queries;
mod readable;

ghost use Rattle.std.specs.Prelude.{◌≡◌, IfOk};
ghost use Rattle.rules.specs.Numbers.{part_place};
ghost use Rattle.rules.specs.Pile.{draw, tip};
ghost use Rattle.rules.specs.Book.{book_answer, desk_answer, body_part, body_start, tonnage_reply, rights_reply};
ghost use Rattle.rules.specs.Record.{desk_start, desk_count};
ghost use Rattle.pile.specs.Replies.{as_reply};
ghost use Rattle.refusal.specs.Answers.{answered};

use audit::tonnage_in;
use find::find;
use layout::contents::position;
use layout::head::head_of;
use layout::lengths::body_length;
use layout::side::Side;
use queries::rights_of;
use readable::book_answer;
use refusal::Refusal;

// The book's own refusal, 1 to 7.
pub fn check(book: &[u8]) -> Result<(), Refusal>
    ensures { answered result ≡ book_answer book.now }
{
    book_answer(book)
}

// The body found for a pile number, as the part of the book at its contents position; empty, at the book's start, where `fetch` is refused, with 1 to 7 or 10.
#[tactic(auto, using(crate::proofs::Replies::body_told), unfolding(rules::specs::Book::body_part, rules::specs::Book::body_start))]
pub fn body(book: &[u8], number: u16) -> &[u8]
    ensures bytes { result.now ≡ body_part book.now number }
    ensures place { result.ref_ptr ≡ part_place book.entry.ref_ptr (body_start book.now number) }
{
    let Ok(place) = find(book, 0, number) else {
        return &book[0..0];
    };
    let at = position(book, place) as usize;
    let size = body_length(head_of(book).desks);
    &book[at..at + size]
}

// Where a desk's call finds a pile: of how many desks its body is, and where that starts.
#[derive(Clone, Copy, Debug, PartialEq, Eq)]
pub struct Sought {
    pub desks: u8,
    pub start: u32,
}

// The body of a number, for a desk; refused with 1 to 7, 11 or 10. Every book has desk 0.
#[tactic(auto, using(crate::proofs::Replies::start_at, crate::proofs::Replies::count_at))]
pub fn seek(book: &[u8], desk: u8, number: u16) -> Result<Sought, Refusal>
    ensures answer { answered result ≡ desk_answer desk book.now number }
    ensures start { IfOk result (λ sought. sought.start ≡ desk_start desk book.now number) }
    ensures desks { IfOk result (λ sought. sought.desks ≡ desk_count desk book.now number) }
{
    let place = find(book, desk, number)?;
    Ok(Sought {
        desks: head_of(book).desks,
        start: position(book, place),
    })
}

// The tonnage of a pile by the acts that the book holds; refused with 1 to 7 or 10.
#[tactic(auto, using(crate::proofs::Bodies::tonnage_queries), unfolding(rules::specs::Book::tonnage_reply))]
pub fn tonnage(book: &[u8], number: u16) -> Result<u32, Refusal>
    ensures { as_reply result ≡ tonnage_reply book.now number }
{
    let found = seek(book, 0, number)?;
    Ok(tonnage_in(book, found.start as usize, found.desks) as u32)
}

// A desk's draw rights of a pile; refused with 1 to 7, 11 or 10.
#[tactic(auto, using(crate::proofs::Bodies::queries), unfolding(rules::specs::Book::rights_reply))]
pub fn draw_rights(book: &[u8], desk: u8, number: u16) -> Result<u32, Refusal>
    ensures { as_reply result ≡ rights_reply draw desk book.now number }
{
    Ok(rights_of(book, Side::Draw, desk, seek(book, desk, number)?))
}

// A desk's tip rights of a pile; refused with 1 to 7, 11 or 10.
#[tactic(auto, using(crate::proofs::Bodies::queries), unfolding(rules::specs::Book::rights_reply))]
pub fn tip_rights(book: &[u8], desk: u8, number: u16) -> Result<u32, Refusal>
    ensures { as_reply result ≡ rights_reply tip desk book.now number }
{
    Ok(rights_of(book, Side::Tip, desk, seek(book, desk, number)?))
}
