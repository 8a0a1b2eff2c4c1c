// The account of a pile's rights, on the bytes of its body: what a book's check, its queries and the acts on it go by.
#![tactic(auto)]

pub mod accounts;
mod body;
mod judge;
mod rights;
mod shares;
mod tallies;
mod totals;

ghost use Rattle.std.specs.Prelude.{◌≡◌};
ghost use Rattle.rules.specs.Pile.{side_of};
ghost use Rattle.audit.specs.Audits.{shape_answer, bodies_answer, rights_in, tonnage_in};
ghost use Rattle.layout.specs.Sides.{as_side};
ghost use Rattle.refusal.specs.Answers.{answered};

use body::Body;
use judge::body_answer;
use layout::lengths::body_length;
use layout::limits::PILES;
use layout::side::Side;
use refusal::Refusal;
use rights::{left_of, tonnage_of};
use totals::Totals;

// 2 for sizes, 3 where there are more or less bytes than p bodies from a position on.
#[tactic(auto, unfolding(crate::specs::Audits::shape_answer, crate::proofs::There::open_there, rules::proofs::Cases::Table::open_refusals))]
fn shape_answer(length: usize, from: usize, n: u8, p: usize) -> Result<(), Refusal>
    ensures { answered result ≡ shape_answer n p from length }
{
    let size = body_length(n);
    if size == 0 || PILES < p {
        return Err(Refusal::HeadWrong);
    }
    if length < from || length - from != p * size {
        return Err(Refusal::LengthWrong);
    }
    Ok(())
}

// One pass over p bodies from a position on, with nothing behind them: refused with 2 for sizes, 3 for the length, or as the first body that is, with 5, 6
// or 7.
#[tactic(auto, using(crate::proofs::Audits::bodies), unfolding(crate::specs::Audits::bodies_answer, rules::proofs::Cases::Table::open_refusals))]
pub fn check_bodies(bytes: &[u8], from: usize, n: u8, p: usize) -> Result<(), Refusal>
    ensures { answered result ≡ bodies_answer n p from bytes.now }
{
    shape_answer(bytes.len(), from, n, p)?;
    let size = body_length(n);
    let mut totals = Totals::new();
    for k in 0..p {
        let at = from + k * size;
        body_answer(Body::at(bytes, at, n), &mut totals)?;
    }
    Ok(())
}

// What a desk's rights of a side come to in the body at a position. The body is not judged: where the desk's debit is above its credit, as in no lawful body,
// that is 0. It is 0 too where there is no such body or desk.
#[tactic(auto, unfolding(crate::specs::Audits::rights_in, rules::proofs::Cases::Table::open_loops))]
pub fn side_rights(bytes: &[u8], at: usize, n: u8, side: Side, desk: u8) -> u64
    ensures { result ≡ rights_in (as_side side) n at bytes.now desk }
{
    if n <= desk {
        return 0;
    }
    let Some(body) = Body::of(bytes, at, n) else {
        return 0;
    };
    left_of(body, desk, side)
}

// The same, of a side that is told by its number: 0 for draw, any other for tip.
pub fn rights_in(bytes: &[u8], at: usize, n: u8, side: u8, desk: u8) -> u64
    ensures { result ≡ rights_in (side_of side) n at bytes.now desk }
{
    side_rights(bytes, at, n, Side::from(side), desk)
}

// What the tonnage comes to in the body at a position. The body is not judged: where more was drawn than it ever had, as in no lawful body, that is 0. It is 0
// too where there is no such body.
#[tactic(auto, unfolding(crate::specs::Audits::tonnage_in))]
pub fn tonnage_in(bytes: &[u8], at: usize, n: u8) -> u64
    ensures { result ≡ tonnage_in n at bytes.now }
{
    let Some(body) = Body::of(bytes, at, n) else {
        return 0;
    };
    tonnage_of(body)
}
