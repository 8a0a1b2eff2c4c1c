// What a desk does to its own book: the four acts, and the take of another desk's copy.
ghost use Rattle.std.specs.Prelude.{◌≡◌};
ghost use Rattle.rules.specs.Refusals.{done};
ghost use Rattle.rules.specs.Pile.{draw, tip};
ghost use Rattle.rules.specs.Acts.{spend, give};
ghost use Rattle.rules.specs.Book.{act_answer, after_act};
ghost use Rattle.rules.specs.Take.{take_answer, after_take, take_report};
ghost use Rattle.desk.specs.Kinds.{act};

use crate::told::hand_out;
use refusal::answer;

// A desk tips onto a pile; refused with 1 to 7 for the book, 11, 10, 13, 14 or 15.
pub fn pit_tip(book: &mut [u8], desk: u8, pile: u16, amount: u32) -> u8
    ensures answer { result ≡ act_answer desk (act (spend tip) pile amount) book.old }
    ensures book { book.new ≡ after_act desk (act (spend tip) pile amount) book.old }
{
    answer(desk::tip(book, desk, pile, amount))
}

// A desk draws from a pile; refused with 1 to 7 for the book, 11, 10, 13, 14 or 15.
pub fn pit_draw(book: &mut [u8], desk: u8, pile: u16, amount: u32) -> u8
    ensures answer { result ≡ act_answer desk (act (spend draw) pile amount) book.old }
    ensures book { book.new ≡ after_act desk (act (spend draw) pile amount) book.old }
{
    answer(desk::draw(book, desk, pile, amount))
}

// A desk gives draw rights of a pile to another; refused with 1 to 7 for the book, 11, 10 or 12 to 15.
pub fn pit_give_draw(book: &mut [u8], desk: u8, pile: u16, receiver: u8, amount: u32) -> u8
    ensures answer { result ≡ act_answer desk (act (give draw receiver) pile amount) book.old }
    ensures book { book.new ≡ after_act desk (act (give draw receiver) pile amount) book.old }
{
    answer(desk::give_draw(book, desk, pile, receiver, amount))
}

// A desk gives tip rights of a pile to another; refused with 1 to 7 for the book, 11, 10 or 12 to 15.
pub fn pit_give_tip(book: &mut [u8], desk: u8, pile: u16, receiver: u8, amount: u32) -> u8
    ensures answer { result ≡ act_answer desk (act (give tip receiver) pile amount) book.old }
    ensures book { book.new ≡ after_act desk (act (give tip receiver) pile amount) book.old }
{
    answer(desk::give_tip(book, desk, pile, receiver, amount))
}

// Takes a copy of another desk's book into the own one, and hands out how many pile and desk pairs have another row now; refused with 1 to 7 for the own
// book, 21 to 27 for the copy, then 11, 30, and by pile and desk 31 or 32.
#[tactic(auto, using(refusal::proofs::Refused::number_is_not_0), unfolding(rules::specs::Refusals::done))]
pub fn pit_take(own: &mut [u8], copy: &[u8], desk: u8, changed: &mut u32) -> u8
    ensures answer { result ≡ take_answer desk own.old copy.now }
    ensures book { own.new ≡ after_take desk own.old copy.now }
    ensures changed { changed.new ≡ done (take_answer desk own.old copy.now) (take_report desk own.old copy.now) changed.old }
{
    hand_out(take::take(own, copy, desk), changed)
}
