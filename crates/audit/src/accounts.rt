// The account of one body where it stands: its own refusal, and where there is none its floor and top, its tonnage and all desks' rights.
ghost use Rattle.std.specs.Prelude.{◌≡◌, ℕ, ◌≤◌, ◌<◌, IfOk};
ghost use Rattle.rules.specs.Loops.{list};
ghost use Rattle.rules.specs.Pile.{draw, tip, top_limit, rights, tonnage};
ghost use Rattle.rules.specs.Layout.{desk_limit, body_view};
ghost use Rattle.rules.specs.Record.{padded};
ghost use Rattle.layout.specs.Sides.{as_side};
ghost use Rattle.audit.specs.Audits.{account_answer, account_number, account_rights};
ghost use Rattle.audit.specs.Inner.{pile_of};
ghost use Rattle.refusal.specs.Answers.{answered};

use crate::body::Body;
use crate::judge::body_answer;
use crate::rights::{left_of, tonnage_of};
use crate::totals::Totals;
use layout::lengths::body_length;
use layout::limits::DESKS;
use layout::side::Side;
use refusal::Refusal;

// All is 0 past n.
#[derive(Clone, Copy, Debug, PartialEq, Eq)]
pub struct Account {
    pub floor: u32,
    pub top: u32,
    pub tonnage: u32,
    pub draw: [u32; DESKS],
    pub tip: [u32; DESKS],
}

// The body of n desks at a position, judged; refused with 2 for n, 3 where no body is there, then 5, 6 or 7.
#[tactic(auto, unfolding(crate::specs::Audits::account_answer, crate::proofs::There::open_there, rules::proofs::Cases::Table::open_refusals))]
fn lawful_body(bytes: &[u8], at: usize, n: u8) -> Result<Body<'_>, Refusal>
    ensures answer { answered result ≡ account_answer n at bytes.now }
    ensures body { IfOk result (λ b. (b.n ≡ n) × (pile_of b ≡ body_view n bytes.now at)) }
{
    if body_length(n) == 0 {
        return Err(Refusal::HeadWrong);
    }
    let body = Body::of(bytes, at, n).ok_or(Refusal::LengthWrong)?;
    body_answer(body, &mut Totals::new())?;
    Ok(body)
}

// The rights of a side of n desks; 0 past n.
#[tactic(auto, unfolding(rules::proofs::Cases::Table::open_loops))]
fn all_rights(body: Body<'_>, side: Side) -> [u32; DESKS]
    requires { (i : ℕ) → i < body.n → rights body.n (pile_of body) (as_side side) i ≤ top_limit }
    ensures { result ≡ list desk_limit (padded body.entry.n (rights body.entry.n (pile_of body.entry) (as_side side))) }
{
    let mut rights = [0u32; DESKS];
    for i in 0..body.n {
        rights[usize::from(i)] = left_of(body, i, side) as u32;
    }
    rights
}

// The account of the body of n desks at a position; refused with 2 for n, 3 where no body is there, then 5, 6 or 7.
#[tactic(auto, using(crate::proofs::OfAccount::account_facts), unfolding(crate::specs::Audits::account_number, crate::specs::Audits::account_rights, rules::proofs::Cases::Table::open_refusals))]
pub fn account_of(bytes: &[u8], at: usize, n: u8) -> Result<Account, Refusal>
    ensures answer { answered result ≡ account_answer n at bytes.now }
    ensures floor { IfOk result (λ a. a.floor ≡ account_number (λ p. p.floor) n at bytes.now) }
    ensures top { IfOk result (λ a. a.top ≡ account_number (λ p. p.top) n at bytes.now) }
    ensures tonnage { IfOk result (λ a. a.tonnage ≡ account_number (tonnage n) n at bytes.now) }
    ensures draw { IfOk result (λ a. a.draw ≡ account_rights draw n at bytes.now) }
    ensures tip { IfOk result (λ a. a.tip ≡ account_rights tip n at bytes.now) }
{
    let body = lawful_body(bytes, at, n)?;
    Ok(Account {
        floor: body.bound(Side::Draw),
        top: body.bound(Side::Tip),
        tonnage: tonnage_of(body) as u32,
        draw: all_rights(body, Side::Draw),
        tip: all_rights(body, Side::Tip),
    })
}
