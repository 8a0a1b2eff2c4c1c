// The lines of the table that every act goes through, on a record and on a book.
#![tactic(auto)]

pub mod kinds;

ghost use Rattle.std.specs.Prelude.{◌≡◌, false, not, ◌+◌, ◌≤◌, ltb, eqb, OnOk};
ghost use Rattle.rules.specs.Loops.{◌or◌};
ghost use Rattle.rules.specs.Refusals.{◌when◌, ◌or_else◌};
ghost use Rattle.rules.specs.Pile.{tally_limit, amount_limit};
ghost use Rattle.refusal.specs.Answers.{answered};

use layout::limits::{AMOUNT_LIMIT, TALLY_LIMIT};
use refusal::Refusal;

// The receiver is no desk, or the giver itself.
#[tactic(auto, unfolding(rules::proofs::Cases::Table::open_loops))]
pub fn receiver_wrong(n: u8, desk: u8, receiver: u8) -> bool
    ensures { result ≡ not (ltb receiver n) or eqb receiver desk }
{
    n <= receiver || receiver == desk
}

// 12 to 15: for an amount, the rights that the act needs, and the tally that it adds to.
#[tactic(auto, unfolding(rules::proofs::Cases::Table::open_loops, rules::proofs::Cases::Table::open_refusals))]
pub fn act_refusal(wrong: bool, amount: u32, rights: u64, tally: u32) -> Result<(), Refusal>
    ensures answer { answered result ≡ 12 when wrong or_else 13 when (eqb amount 0 or ltb amount_limit amount) or_else 14 when ltb rights amount or_else 15 when ltb tally_limit (tally + amount) }
    ensures room { OnOk result ((wrong ≡ false) × (tally + amount ≤ tally_limit)) }
{
    if wrong {
        return Err(Refusal::ReceiverWrong);
    }
    if amount == 0 || AMOUNT_LIMIT < amount {
        return Err(Refusal::AmountWrong);
    }
    if rights < u64::from(amount) {
        return Err(Refusal::RightsShort);
    }
    if TALLY_LIMIT < u64::from(tally) + u64::from(amount) {
        return Err(Refusal::LimitReached);
    }
    Ok(())
}
