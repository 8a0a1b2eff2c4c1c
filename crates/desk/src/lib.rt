// The four acts of a desk on its own book. Each call checks the whole book first; an act writes just its one tally, and a refused call nothing.
#![tactic(auto)]

mod enter;

ghost use Rattle.std.specs.Prelude.{◌≡◌};
ghost use Rattle.rules.specs.Pile.{draw, tip};
ghost use Rattle.rules.specs.Acts.{spend, give};
ghost use Rattle.rules.specs.Book.{act_answer, after_act};
ghost use Rattle.desk.specs.Kinds.{act};
ghost use Rattle.refusal.specs.Answers.{answered};

use act_lines::kinds::Kind;
use enter::enter;
use layout::side::Side;
use refusal::Refusal;

// A desk tips onto a pile; refused with 1 to 7 for the book, 11, 10, 13, 14 or 15.
pub fn tip(book: &mut [u8], desk: u8, number: u16, amount: u32) -> Result<(), Refusal>
    ensures answer { answered result ≡ act_answer desk (act (spend tip) number amount) book.old }
    ensures book { book.new ≡ after_act desk (act (spend tip) number amount) book.old }
{
    enter(book, desk, number, Kind::Spend(Side::Tip), amount)
}

// A desk draws from a pile; refused with 1 to 7 for the book, 11, 10, 13, 14 or 15.
pub fn draw(book: &mut [u8], desk: u8, number: u16, amount: u32) -> Result<(), Refusal>
    ensures answer { answered result ≡ act_answer desk (act (spend draw) number amount) book.old }
    ensures book { book.new ≡ after_act desk (act (spend draw) number amount) book.old }
{
    enter(book, desk, number, Kind::Spend(Side::Draw), amount)
}

// A desk gives draw rights of a pile to another; refused with 1 to 7 for the book, 11, 10 or 12 to 15.
pub fn give_draw(
    book: &mut [u8],
    desk: u8,
    number: u16,
    receiver: u8,
    amount: u32,
) -> Result<(), Refusal>
    ensures answer { answered result ≡ act_answer desk (act (give draw receiver) number amount) book.old }
    ensures book { book.new ≡ after_act desk (act (give draw receiver) number amount) book.old }
{
    enter(book, desk, number, Kind::Give(Side::Draw, receiver), amount)
}

// A desk gives tip rights of a pile to another; refused with 1 to 7 for the book, 11, 10 or 12 to 15.
pub fn give_tip(
    book: &mut [u8],
    desk: u8,
    number: u16,
    receiver: u8,
    amount: u32,
) -> Result<(), Refusal>
    ensures answer { answered result ≡ act_answer desk (act (give tip receiver) number amount) book.old }
    ensures book { book.new ≡ after_act desk (act (give tip receiver) number amount) book.old }
{
    enter(book, desk, number, Kind::Give(Side::Tip, receiver), amount)
}
