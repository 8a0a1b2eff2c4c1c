// What is wrong with the fields of a ticket: each field's limits, and what is told of a value outside them.
ghost use Rattle.std.specs.Prelude.{◌≡◌, not, IfOk, ltb};
ghost use Rattle.rules.specs.Loops.{between};
ghost use Rattle.rules.specs.Pile.{amount_limit};
ghost use Rattle.rules.specs.Refusals.{◌when◌};
ghost use Rattle.refusal.specs.Answers.{number_of, answered};
ghost use Rattle.ticket.specs.Tickets.{number_limit};

use refusal::Refusal;

// A value within its limits, or else this refusal.
#[tactic(auto, unfolding(rules::proofs::Cases::Table::open_refusals, rules::proofs::Cases::Table::open_loops))]
fn within(low: u32, high: u32, refusal: Refusal, x: u32) -> Result<u32, Refusal>
    ensures answer { answered result ≡ number_of refusal when not (between low high x) }
    ensures value { IfOk result (λ value. value ≡ x) }
{
    if !(low..=high).contains(&x) {
        return Err(refusal);
    }
    Ok(x)
}

// A number that is read is never over its limit: four bytes with right digits say no more.
pub(crate) fn number(x: u32) -> Result<u32, Refusal>
    ensures answer { answered result ≡ 33 when not (between 0 number_limit x) }
    ensures value { IfOk result (λ value. value ≡ x) }
{
    within(0, 99_999_999, Refusal::DigitsWrong, x)
}

pub(crate) fn pile(x: u32) -> Result<u32, Refusal>
    ensures answer { answered result ≡ 34 when not (between 1 65535 x) }
    ensures value { IfOk result (λ value. value ≡ x) }
{
    within(1, 65_535, Refusal::TicketPileWrong, x)
}

pub(crate) fn tonnes(x: u32) -> Result<u32, Refusal>
    ensures answer { answered result ≡ 13 when not (between 1 amount_limit x) }
    ensures value { IfOk result (λ value. value ≡ x) }
{
    within(1, 1_000, Refusal::AmountWrong, x)
}

// 1 is a tip, and 2 a draw.
pub(crate) fn kind(x: u8) -> Result<u8, Refusal>
    ensures answer { answered result ≡ 35 when not (between 1 2 x) }
    ensures value { IfOk result (λ value. value ≡ x) }
{
    within(1, 2, Refusal::KindOrDeskWrong, u32::from(x)).map(|_| x)
}

#[tactic(auto, unfolding(rules::proofs::Cases::Table::open_refusals, rules::proofs::Cases::Table::open_loops))]
pub(crate) fn desk(x: u8) -> Result<u8, Refusal>
    ensures answer { answered result ≡ 35 when ltb 7 x }
    ensures value { IfOk result (λ value. value ≡ x) }
{
    within(0, 7, Refusal::KindOrDeskWrong, u32::from(x)).map(|_| x)
}
