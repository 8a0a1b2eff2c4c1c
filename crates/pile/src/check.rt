// A record is packed as the body of its n desks, which is judged and asked as those of a book are.
ghost use Rattle.std.specs.Prelude.{◌≡◌, IfOk};
ghost use Rattle.rules.specs.Record.{record_answer};
ghost use Rattle.refusal.specs.Answers.{answered};
ghost use Rattle.pile.specs.View.{as_record};
ghost use Rattle.pile.specs.Inner.{PackedAs};

use crate::Pile;
use layout::lengths::LONGEST_BODY;
use padding::{check_record, pack};
use refusal::Refusal;

// A lawful record's body, at the start of bytes that have room for any; refused with the record's own refusal.
#[tactic(auto, using(refusal::proofs::Refused::refusals, crate::proofs::Packed::list_answer_lem, crate::proofs::Packed::packs))]
pub(crate) fn body_of(p: Pile) -> Result<[u8; LONGEST_BODY], Refusal>
    ensures answer { answered result ≡ record_answer (as_record p) }
    ensures body { IfOk result (PackedAs (as_record p)) }
{
    let numbers = p.numbers();
    check_record(&numbers)?;
    let mut body = [0; LONGEST_BODY];
    pack(&numbers, &mut body, 0).unwrap();
    Ok(body)
}
