// The acts on a record: one function enters all four.
ghost use Rattle.std.specs.Prelude.{◌≡◌, IfOk};
ghost use Rattle.rules.specs.Record.{record_act_answer, record_after_act};
ghost use Rattle.act_lines.specs.Kinds.{kind_of};
ghost use Rattle.refusal.specs.Answers.{answered};
ghost use Rattle.pile.specs.View.{as_record};

use crate::queries::rights_of;
use crate::{Outcome, Pile, ROW};
use act_lines::act_refusal;
use act_lines::kinds::Kind;
use refusal::Refusal;

// The record after an act of a desk. A row has no place for a receiver that is none of 8 desks, and then the act is refused for its receiver.
#[tactic(auto, using(crate::proofs::ActLines::acts), unfolding(rules::specs::Record::record_after_act, rules::specs::Refusals::done))]
fn enter(p: Pile, desk: u8, kind: Kind, amount: u32) -> Result<Pile, Refusal>
    ensures answer { answered result ≡ record_act_answer desk (kind_of kind) amount (as_record p) }
    ensures pile { IfOk result (λ pile. as_record pile ≡ record_after_act desk (kind_of kind) amount (as_record p)) }
{
    let rights = rights_of(p, kind.side(), desk)?;
    let column = usize::from(kind.column(Pile::DESKS));
    let at = usize::from(desk) * ROW + column;
    let tally = p.tallies.get(at).copied().unwrap_or(0);
    let wrong = kind.receiver_wrong(p.n, desk);
    act_refusal(wrong, amount, u64::from(rights), tally)?;
    let mut next = p;
    next.tallies[at] = tally + amount;
    Ok(next)
}

// The record after an act beside its answer: where it is refused, the record before it.
#[tactic(auto, using(refusal::proofs::Refused::refusals), unfolding(rules::specs::Record::record_after_act, rules::proofs::Cases::Table::open_refusals))]
pub(crate) fn act(p: Pile, desk: u8, kind: Kind, amount: u32) -> Outcome
    ensures answer { answered result.answer ≡ record_act_answer desk (kind_of kind) amount (as_record p) }
    ensures pile { as_record result.pile ≡ record_after_act desk (kind_of kind) amount (as_record p) }
{
    match enter(p, desk, kind, amount) {
        Ok(pile) => Outcome {
            answer: Ok(()),
            pile,
        },
        Err(refusal) => Outcome {
            answer: Err(refusal),
            pile: p,
        },
    }
}
