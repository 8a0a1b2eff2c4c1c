// Where a body is there, one desk's rights in it, and its tonnage.
ghost use Rattle.std.specs.Prelude.{◌≡◌, ◌-◌, ◌≤◌, ◌<◌};
ghost use Rattle.rules.specs.Pile.{rights, tonnage};
ghost use Rattle.layout.specs.Sides.{as_side};
ghost use Rattle.audit.specs.Audits.{body_there};
ghost use Rattle.audit.specs.Inner.{pile_of};

use crate::body::Body;
use layout::lengths::body_length;
use layout::side::Side;
use number::runs_past;

// Is a body of n desks there from a position on?
#[tactic(auto, unfolding(crate::proofs::There::open_there))]
pub(crate) fn body_there(length: usize, at: usize, n: u8) -> bool
    ensures { result ≡ body_there n at length }
{
    let size = body_length(n);
    size != 0 && !runs_past(length, at, size)
}

// The rights of desk i: its share, what it earned and what it got, less what it gave and spent. Where more is taken off than there is, as in no lawful body, 0.
#[tactic(auto, unfolding(rules::proofs::Cases::Table::open_pile, rules::proofs::Cases::Table::open_loops))]
pub(crate) fn left_of(body: Body<'_>, i: u8, side: Side) -> u64
    requires { i < body.n }
    ensures { result ≡ rights body.entry.n (pile_of body.entry) (as_side side) i }
{
    let mut credit = u64::from(body.share(side, i)) + u64::from(body.earned(side, i));
    let mut debit = u64::from(body.earned(side.other(), i));
    for j in 0..body.n {
        credit += u64::from(body.give(side, j, i));
        debit += u64::from(body.give(side, i, j));
    }
    credit.saturating_sub(debit)
}

// The tonnage: the floor, the draw shares and what was tipped, less what was drawn. Where more was drawn than that, as in no lawful body, 0.
#[tactic(auto, unfolding(rules::specs::Pile::tonnage, rules::proofs::Cases::Table::open_loops))]
pub(crate) fn tonnage_of(body: Body<'_>) -> u64
    ensures { result ≡ tonnage body.entry.n (pile_of body.entry) }
{
    let mut had = u64::from(body.bound(Side::Draw));
    let mut drawn: u64 = 0;
    for i in 0..body.n {
        had += u64::from(body.share(Side::Draw, i)) + u64::from(body.earned(Side::Draw, i));
        drawn += u64::from(body.earned(Side::Tip, i));
    }
    had.saturating_sub(drawn)
}
