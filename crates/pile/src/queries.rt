// Rights and tonnage of a record, asked of its body. The side is a parameter.
ghost use Rattle.std.specs.Prelude.{◌≡◌, IfOk};
ghost use Rattle.rules.specs.Pile.{rights, tonnage};
ghost use Rattle.rules.specs.Record.{record_view, record_answer, record_desk_answer};
ghost use Rattle.layout.specs.Sides.{as_side};
ghost use Rattle.refusal.specs.Answers.{answered};
ghost use Rattle.pile.specs.View.{as_record};

use crate::Pile;
use crate::check::body_of;
use audit::{side_rights, tonnage_in};
use layout::side::Side;
use refusal::Refusal;

// Rights of a side at a desk.
#[tactic(auto, using(refusal::proofs::Refused::refusals), unfolding(rules::specs::Record::record_desk_answer, rules::proofs::Cases::Table::open_refusals))]
pub(crate) fn rights_of(p: Pile, side: Side, desk: u8) -> Result<u32, Refusal>
    ensures answer { answered result ≡ record_desk_answer desk (as_record p) }
    ensures rights { IfOk result (λ tonnes. tonnes ≡ rights p.n (record_view (as_record p)) (as_side side) desk) }
{
    let body = body_of(p)?;
    if p.n <= desk {
        return Err(Refusal::DeskAbsent);
    }
    Ok(side_rights(&body, 0, p.n, side, desk) as u32)
}

// The tonnage by the acts that the record holds.
pub(crate) fn tonnage_of(p: Pile) -> Result<u32, Refusal>
    ensures answer { answered result ≡ record_answer (as_record p) }
    ensures tonnage { IfOk result (λ tonnes. tonnes ≡ tonnage p.n (record_view (as_record p))) }
{
    let body = body_of(p)?;
    Ok(tonnage_in(&body, 0, p.n) as u32)
}
