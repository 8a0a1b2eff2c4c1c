// What is asked of a pile: rights, tonnage, what a desk can be sure of, and where its body lies. The result goes into numbers that the caller lends.
ghost use Rattle.std.specs.Prelude.{◌≡◌};
ghost use Rattle.rules.specs.Pile.{draw, tip};
ghost use Rattle.rules.specs.Book.{fetch_answer, tonnage_reply, rights_reply};
ghost use Rattle.rules.specs.Bounds.{bound_reply};
ghost use Rattle.pitbook.specs.Queries.{answer_of, value_of, start_or, length_or};

use crate::told::hand_out;
use book::{draw_rights, seek, tip_rights, tonnage};
use bounds::{least, most};
use layout::lengths::body_length;
use refusal::answer;

// A desk's draw rights of a pile; refused with 1 to 7, 11 or 10.
pub fn pit_draw_rights(book: &[u8], desk: u8, pile: u16, out: &mut u32) -> u8
    ensures answer { result ≡ answer_of (rights_reply draw desk book.now pile) }
    ensures out { out.new ≡ value_of (rights_reply draw desk book.now pile) out.old }
{
    hand_out(draw_rights(book, desk, pile), out)
}

// A desk's tip rights of a pile; refused with 1 to 7, 11 or 10.
pub fn pit_tip_rights(book: &[u8], desk: u8, pile: u16, out: &mut u32) -> u8
    ensures answer { result ≡ answer_of (rights_reply tip desk book.now pile) }
    ensures out { out.new ≡ value_of (rights_reply tip desk book.now pile) out.old }
{
    hand_out(tip_rights(book, desk, pile), out)
}

// The tonnage of a pile by the acts that the book holds; refused with 1 to 7 or 10.
pub fn pit_tonnage(book: &[u8], pile: u16, out: &mut u32) -> u8
    ensures answer { result ≡ answer_of (tonnage_reply book.now pile) }
    ensures out { out.new ≡ value_of (tonnage_reply book.now pile) out.old }
{
    hand_out(tonnage(book, pile), out)
}

// The least that a pile has by all acts made, as far as a desk can be sure; refused with 1 to 7, 11 or 10.
pub fn pit_least(book: &[u8], desk: u8, pile: u16, out: &mut u32) -> u8
    ensures answer { result ≡ answer_of (bound_reply draw desk book.now pile) }
    ensures out { out.new ≡ value_of (bound_reply draw desk book.now pile) out.old }
{
    hand_out(least(book, desk, pile), out)
}

// The most that a pile has by all acts made, as far as a desk can be sure; refused with 1 to 7, 11 or 10.
pub fn pit_most(book: &[u8], desk: u8, pile: u16, out: &mut u32) -> u8
    ensures answer { result ≡ answer_of (bound_reply tip desk book.now pile) }
    ensures out { out.new ≡ value_of (bound_reply tip desk book.now pile) out.old }
{
    hand_out(most(book, desk, pile), out)
}

// Where the body of a pile starts, its contents position, and its length; refused with 1 to 7 or 10.
#[tactic(auto, using(crate::proofs::BodyTold::body_told), unfolding(crate::specs::Queries::start_or, crate::specs::Queries::length_or, rules::specs::Refusals::done))]
pub fn pit_body(book: &[u8], pile: u16, start: &mut usize, length: &mut usize) -> u8
    ensures answer { result ≡ fetch_answer book.now pile }
    ensures start { start.new ≡ start_or book.now pile start.old }
    ensures length { length.new ≡ length_or book.now pile length.old }
{
    let sought = seek(book, 0, pile);
    if let Ok(found) = sought {
        *start = found.start as usize;
        *length = body_length(found.desks);
    }
    answer(sought.map(|_| ()))
}
