// The four acts on a record that the caller lends: a dispatcher's run of acts on one pile is a run of calls on one record.
ghost use Rattle.std.specs.Prelude.{◌≡◌};
ghost use Rattle.rules.specs.Pile as side;
ghost use Rattle.rules.specs.Acts.{spend, give};
ghost use Rattle.rules.specs.Record.{record_act_answer, record_after_act};
ghost use Rattle.pile.specs.View.{as_record};
ghost use Rattle.refusal.specs.Answers.{answered};

use pile::{Outcome, Pile};
use refusal::Refusal;

// The record after an act goes where the one before it was lent from, and the answer to the caller.
fn hand_back(pile: &mut Pile, outcome: Outcome) -> Result<(), Refusal>
    ensures answer { result ≡ outcome.answer }
    ensures pile { pile.new ≡ outcome.pile }
{
    *pile = outcome.pile;
    outcome.answer
}

// A desk tips onto the lent pile; refused with 2, 5, 6, 7, 11, 13, 14 or 15, and then the record is unaltered.
pub fn tip(pile: &mut Pile, desk: u8, amount: u32) -> Result<(), Refusal>
    ensures answer { answered result ≡ record_act_answer desk (spend side.tip) amount (as_record pile.old) }
    ensures pile { as_record pile.new ≡ record_after_act desk (spend side.tip) amount (as_record pile.old) }
{
    let outcome = (*pile).tip(desk, amount);
    hand_back(pile, outcome)
}

// A desk draws from the lent pile; refused with 2, 5, 6, 7, 11, 13, 14 or 15, and then the record is unaltered.
pub fn draw(pile: &mut Pile, desk: u8, amount: u32) -> Result<(), Refusal>
    ensures answer { answered result ≡ record_act_answer desk (spend side.draw) amount (as_record pile.old) }
    ensures pile { as_record pile.new ≡ record_after_act desk (spend side.draw) amount (as_record pile.old) }
{
    let outcome = (*pile).draw(desk, amount);
    hand_back(pile, outcome)
}

// A desk gives draw rights of the lent pile; refused with 2, 5, 6, 7 or 11 to 15, and then the record is unaltered.
pub fn give_draw(pile: &mut Pile, desk: u8, receiver: u8, amount: u32) -> Result<(), Refusal>
    ensures answer { answered result ≡ record_act_answer desk (give side.draw receiver) amount (as_record pile.old) }
    ensures pile { as_record pile.new ≡ record_after_act desk (give side.draw receiver) amount (as_record pile.old) }
{
    let outcome = (*pile).give_draw(desk, receiver, amount);
    hand_back(pile, outcome)
}

// A desk gives tip rights of the lent pile; refused with 2, 5, 6, 7 or 11 to 15, and then the record is unaltered.
pub fn give_tip(pile: &mut Pile, desk: u8, receiver: u8, amount: u32) -> Result<(), Refusal>
    ensures answer { answered result ≡ record_act_answer desk (give side.tip receiver) amount (as_record pile.old) }
    ensures pile { as_record pile.new ≡ record_after_act desk (give side.tip receiver) amount (as_record pile.old) }
{
    let outcome = (*pile).give_tip(desk, receiver, amount);
    hand_back(pile, outcome)
}
