// What a desk can be sure of: the least and the most tonnes that a pile can have by all acts made, heard of or not.
#![tactic(auto)]

mod bound;
mod queries;

ghost use Rattle.std.specs.Prelude.{◌≡◌, IfOk};
ghost use Rattle.rules.specs.Pile.{draw, tip, tonnage};
ghost use Rattle.rules.specs.Bounds.{bound_reply, record_bound_reply};
ghost use Rattle.audit.specs.Audits.{account_answer, account_number, account_rights};
ghost use Rattle.pile.specs.View.{as_record};
ghost use Rattle.pile.specs.Replies.{as_reply};
ghost use Rattle.bounds.specs.AccountBounds.{account_bounds};
ghost use Rattle.refusal.specs.Answers.{answered};

use audit::accounts::{Account, account_of};
use book::seek;
use bound::bounds_of;
use layout::limits::DESKS;
use layout::side::Side;
use pile::Pile;
use queries::{book_bound, record_bound};
use refusal::Refusal;

// The account of a body, and each desk's least and most. All is 0 past n.
#[derive(Clone, Copy, Debug, PartialEq, Eq)]
pub struct Bounded {
    pub held: Account,
    pub least: [u32; DESKS],
    pub most: [u32; DESKS],
}

// The pile has at least so many tonnes, as far as a desk can be sure: floor and its draw rights; refused with 2, 5, 6, 7 or 11.
pub fn pile_least(pile: Pile, desk: u8) -> Result<u32, Refusal>
    ensures { as_reply result ≡ record_bound_reply draw desk (as_record pile) }
{
    record_bound(pile, Side::Draw, desk)
}

// The pile has at most so many tonnes, as far as a desk can be sure: top less its tip rights; refused with 2, 5, 6, 7 or 11.
pub fn pile_most(pile: Pile, desk: u8) -> Result<u32, Refusal>
    ensures { as_reply result ≡ record_bound_reply tip desk (as_record pile) }
{
    record_bound(pile, Side::Tip, desk)
}

// The account of the body of n desks at a position, and the least and the most of all desks beside it; refused with 2 for n, 3 where no body is there, then 5,
// 6 or 7.
#[tactic(auto, using(crate::proofs::All::all_bounds))]
pub fn bounds_in(bytes: &[u8], at: usize, n: u8) -> Result<Bounded, Refusal>
    ensures answer { answered result ≡ account_answer n at bytes.now }
    ensures floor { IfOk result (λ b. b.held.floor ≡ account_number (λ p. p.floor) n at bytes.now) }
    ensures top { IfOk result (λ b. b.held.top ≡ account_number (λ p. p.top) n at bytes.now) }
    ensures tonnage { IfOk result (λ b. b.held.tonnage ≡ account_number (tonnage n) n at bytes.now) }
    ensures draw { IfOk result (λ b. b.held.draw ≡ account_rights draw n at bytes.now) }
    ensures tip { IfOk result (λ b. b.held.tip ≡ account_rights tip n at bytes.now) }
    ensures least { IfOk result (λ b. b.least ≡ account_bounds draw n at bytes.now) }
    ensures most { IfOk result (λ b. b.most ≡ account_bounds tip n at bytes.now) }
{
    let held = account_of(bytes, at, n)?;
    let least = bounds_of(Side::Draw, held.floor, held.top, held.draw, n);
    let most = bounds_of(Side::Tip, held.floor, held.top, held.tip, n);
    Ok(Bounded { held, least, most })
}

// The least that a pile has, as far as a desk can be sure; refused with 1 to 7, 11 or 10.
#[tactic(auto, using(book::proofs::Bodies::queries), unfolding(rules::specs::Bounds::bound_reply))]
pub fn least(book: &[u8], desk: u8, number: u16) -> Result<u32, Refusal>
    ensures { as_reply result ≡ bound_reply draw desk book.now number }
{
    Ok(book_bound(book, Side::Draw, desk, seek(book, desk, number)?))
}

// The most that a pile has, as far as a desk can be sure; refused with 1 to 7, 11 or 10.
#[tactic(auto, using(book::proofs::Bodies::queries), unfolding(rules::specs::Bounds::bound_reply))]
pub fn most(book: &[u8], desk: u8, number: u16) -> Result<u32, Refusal>
    ensures { as_reply result ≡ bound_reply tip desk book.now number }
{
    Ok(book_bound(book, Side::Tip, desk, seek(book, desk, number)?))
}
