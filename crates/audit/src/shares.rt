// The shares of a body, with which each desk's totals start.
ghost use Rattle.std.specs.Prelude.{◌≡◌, ◌+◌, ◌≤◌};
ghost use Rattle.rules.specs.Loops.{sum};
ghost use Rattle.layout.specs.Sides.{as_side};
ghost use Rattle.audit.specs.Inner.{pile_of, SharesSet, SharesRead};

use crate::body::Body;
use crate::totals::Totals;
use layout::limits::DESKS;
use layout::side::Side;

// Sets each desk's total of a side to its share, and returns what the shares come to.
#[tactic(auto, unfolding(rules::proofs::Cases::Table::open_loops))]
fn set_shares(body: Body<'_>, side: Side, totals: &mut [u64; DESKS]) -> u64
    ensures sum { (result ≡ sum body.entry.n ((pile_of body.entry).share (as_side side))) × (result ≤ 34359738368) }
    ensures totals { SharesSet body.entry.n ((pile_of body.entry).share (as_side side)) totals.new }
{
    let mut sum: u64 = 0;
    for j in 0..body.n {
        let share = u64::from(body.share(side, j));
        sum += share;
        totals[usize::from(j)] = share;
    }
    sum
}

// The shares of both sides.
fn read_shares(body: Body<'_>, totals: &mut Totals) -> u64
    ensures { SharesRead (pile_of body.entry) body.entry.n result totals.new }
{
    set_shares(body, Side::Draw, &mut totals.received.draw)
        + set_shares(body, Side::Tip, &mut totals.received.tip)
}

// The same, with small numbers of desks written out, so that the compiler lays out a loop for each. Not with 8 too: measured, that is slower.
pub(crate) fn read_shares_of(body: Body<'_>, totals: &mut Totals) -> u64
    ensures { SharesRead (pile_of body.entry) body.entry.n result totals.new }
{
    match body.n {
        1 => read_shares(body.written_out(1), totals),
        2 => read_shares(body.written_out(2), totals),
        3 => read_shares(body.written_out(3), totals),
        4 => read_shares(body.written_out(4), totals),
        _ => read_shares(body, totals),
    }
}
