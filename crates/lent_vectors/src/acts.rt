// The acts on a record that is lent: a local record is lent for one act, or for each of a run of acts, and handed back.
ghost use Rattle.std.specs.Prelude.{◌≡◌};
ghost use Rattle.std.specs.Fn.{FnOnceReturnsAtMut};
ghost use Rattle.rules.specs.Pile as side;
ghost use Rattle.rules.specs.Acts.{spend, give};
ghost use Rattle.rules.specs.Record.{record_act_answer, record_after_act};
ghost use Rattle.pile.specs.View.{as_record};
ghost use Rattle.refusal.specs.Answers.{answered};
ghost use Rattle.lent_vectors.specs.Worked.{after_worked};

use lent::{draw, give_draw, give_tip, tip};
use pile::{Outcome, Pile};
use refusal::Refusal;

// A record lent for one act: its answer, and the record that came back.
fn lend<F: FnOnce(&mut Pile) -> Result<(), Refusal>>(start: Pile, act: F) -> Outcome
    requires { F.IsAlwaysCallable act }
    ensures { FnOnceReturnsAtMut F.FnOnce act start result.answer result.pile }
{
    let mut own = start;
    let answer = act(&mut own);
    Outcome { answer, pile: own }
}

pub(crate) fn tipped(start: Pile, desk: u8, amount: u32) -> Outcome
    ensures answer { answered result.answer ≡ record_act_answer desk (spend side.tip) amount (as_record start) }
    ensures pile { as_record result.pile ≡ record_after_act desk (spend side.tip) amount (as_record start) }
{
    lend(start, |own| tip(own, desk, amount))
}

pub(crate) fn drawn(start: Pile, desk: u8, amount: u32) -> Outcome
    ensures answer { answered result.answer ≡ record_act_answer desk (spend side.draw) amount (as_record start) }
    ensures pile { as_record result.pile ≡ record_after_act desk (spend side.draw) amount (as_record start) }
{
    lend(start, |own| draw(own, desk, amount))
}

pub(crate) fn draw_given(start: Pile, desk: u8, receiver: u8, amount: u32) -> Outcome
    ensures answer { answered result.answer ≡ record_act_answer desk (give side.draw receiver) amount (as_record start) }
    ensures pile { as_record result.pile ≡ record_after_act desk (give side.draw receiver) amount (as_record start) }
{
    lend(start, |own| give_draw(own, desk, receiver, amount))
}

pub(crate) fn tip_given(start: Pile, desk: u8, receiver: u8, amount: u32) -> Outcome
    ensures answer { answered result.answer ≡ record_act_answer desk (give side.tip receiver) amount (as_record start) }
    ensures pile { as_record result.pile ≡ record_after_act desk (give side.tip receiver) amount (as_record start) }
{
    lend(start, |own| give_tip(own, desk, receiver, amount))
}

// The worked book's seven acts, on one record that is lent for each in turn. Whatever is refused leaves it as it was.
pub(crate) fn worked(start: Pile) -> Pile
    ensures { as_record result ≡ after_worked (as_record start) }
{
    let mut own = start;
    tip(&mut own, 0, 30).ok();
    tip(&mut own, 1, 1).ok();
    give_draw(&mut own, 0, 1, 10).ok();
    give_draw(&mut own, 0, 2, 10).ok();
    draw(&mut own, 0, 5).ok();
    draw(&mut own, 1, 4).ok();
    draw(&mut own, 2, 2).ok();
    own
}
