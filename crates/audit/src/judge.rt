// The lines of the table for one body, from its account.
ghost use Rattle.std.specs.Prelude.{◌≡◌, ◌-◌, leb, eqb};
ghost use Rattle.rules.specs.Loops.{◌and◌};
ghost use Rattle.rules.specs.Pile.{top_limit, lawful, pile_answer};
ghost use Rattle.audit.specs.Inner.{pile_of, all_credits, RowsRead};
ghost use Rattle.refusal.specs.Answers.{answered};

use crate::body::{Body, word};
use crate::shares::read_shares_of;
use crate::tallies::{read_rows_of, rows_within};
use crate::totals::Totals;
use layout::cells::cell_at;
use layout::lengths::row_length;
use layout::limits::{TALLY_LIMIT, TOP_LIMIT};
use layout::side::Side;
use refusal::Refusal;

// floor ≤ top ≤ 10,000,000, and all shares add up to top - floor.
#[tactic(auto, unfolding(rules::proofs::Cases::Table::open_loops))]
fn opening_sound(floor: u64, top: u64, shares: u64) -> bool
    ensures { result ≡ leb floor top and leb top top_limit and eqb shares (top - floor) }
{
    floor <= top && top <= TOP_LIMIT && shares == top - floor
}

// Is no desk's debit above its credit? And what all credits come to: no tally is above that. Both, and no `Result`: the table asks for the tallies, and
// so for the credits, before the rights.
#[derive(Clone, Copy)]
struct Balance {
    pub covered: bool,
    pub credits: u64,
}

// The rows are found one behind the other, and not by their numbers: measured, that is faster. Nothing leaves the loop, so that the compiler does several desks
// at once.
#[tactic(auto, unfolding(rules::proofs::Cases::Table::open_layout, rules::proofs::Cases::Table::open_pile, rules::proofs::Cases::Table::open_loops))]
fn balance_of(body: Body<'_>, totals: &Totals) -> Balance
    requires { RowsRead (pile_of body) body.n body.n totals.now }
    ensures covered { result.covered ≡ lawful body.entry.n (pile_of body.entry) }
    ensures credits { result.credits ≡ all_credits body.entry }
{
    let size = row_length(body.n);
    let mut covered = true;
    let mut credits: u64 = 0;
    let mut row = cell_at(body.n, 1, 0);
    for i in 0..usize::from(body.n) {
        let tipped = u64::from(word(
            body.bytes,
            row + cell_at(body.n, 0, Side::Draw.earned_column()),
        ));
        let drawn = u64::from(word(
            body.bytes,
            row + cell_at(body.n, 0, Side::Tip.earned_column()),
        ));
        let draw_credit = totals.received.draw[i] + tipped;
        let tip_credit = totals.received.tip[i] + drawn;
        if draw_credit < totals.given.draw[i] + drawn {
            covered = false;
        }
        if tip_credit < totals.given.tip[i] + tipped {
            covered = false;
        }
        credits += draw_credit + tip_credit;
        row += size;
    }
    Balance { covered, credits }
}

// The first refusal of a body: 5, 6 or 7. What the totals are before is of no account: they are lent so that they are made once for many bodies.
#[tactic(auto, using(crate::proofs::Verdict::tallies), unfolding(rules::specs::Pile::opening_lawful, rules::specs::Pile::pile_answer, rules::proofs::Cases::Table::open_loops, rules::proofs::Cases::Table::open_refusals))]
pub(crate) fn body_answer(body: Body<'_>, totals: &mut Totals) -> Result<(), Refusal>
    ensures { answered result ≡ pile_answer body.entry.n (pile_of body.entry) }
{
    let shares = read_shares_of(body, totals);
    let own = read_rows_of(body, totals);
    let balance = balance_of(body, totals);
    let floor = u64::from(body.bound(Side::Draw));
    let top = u64::from(body.bound(Side::Tip));
    if !opening_sound(floor, top, shares) {
        return Err(Refusal::OpeningUnlawful);
    }
    // No desk gave itself anything, and each tally is within its limit: one above it would be above it in a credit too, and so in what they all come to. Only
    // then each is looked at.
    if own != 0 || (TALLY_LIMIT < balance.credits && !rows_within(body)) {
        return Err(Refusal::TallyWrong);
    }
    if !balance.covered {
        return Err(Refusal::RightsNegative);
    }
    Ok(())
}
