// The rows of a body, each read once for both sides.
ghost use Rattle.std.specs.Prelude.{◌≡◌, ℕ, ◌+◌, ◌≤◌, ◌<◌, get_or};
ghost use Rattle.rules.specs.Loops.{sum, every};
ghost use Rattle.layout.specs.Sides.{as_side};
ghost use Rattle.audit.specs.Inner.{pile_of, own_gives, row_small, RowAdded, RowsRead};

use crate::body::Body;
use crate::totals::Totals;
use layout::cells::columns_of;
use layout::limits::{DESKS, TALLY_LIMIT};
use layout::side::Side;

// Adds what desk i gives of a side, each number to its desk's total, and returns what they come to. Nothing leaves the loop, so that the compiler does
// several at once.
#[tactic(auto, unfolding(rules::proofs::Cases::Table::open_loops))]
fn add_row(body: Body<'_>, i: u8, side: Side, totals: &mut [u64; DESKS]) -> u64
    requires desk { i < body.n }
    requires room { (j : ℕ) → j < body.n → get_or totals.old j 0 ≤ 1000000000000 }
    ensures sum { (result ≡ sum body.entry.n ((pile_of body.entry).give (as_side side) i)) × (result ≤ 34359738368) }
    ensures totals { RowAdded body.entry.n ((pile_of body.entry).give (as_side side) i) totals.old totals.new }
{
    let mut sum: u64 = 0;
    for j in 0..body.n {
        let x = u64::from(body.give(side, i, j));
        sum += x;
        totals[usize::from(j)] += x;
    }
    sum
}

// Reads n rows, and returns what the desks gave themselves.
#[tactic(auto, unfolding(rules::proofs::Cases::Table::open_loops))]
fn read_rows(body: Body<'_>, totals: &mut Totals) -> u64
    requires { RowsRead (pile_of body) body.n 0 totals.old }
    ensures own { result ≡ own_gives body.entry }
    ensures totals { RowsRead (pile_of body.entry) body.entry.n body.entry.n totals.new }
{
    let mut own: u64 = 0;
    for i in 0..body.n {
        let place = usize::from(i);
        totals.given.draw[place] = add_row(body, i, Side::Draw, &mut totals.received.draw);
        totals.given.tip[place] = add_row(body, i, Side::Tip, &mut totals.received.tip);
        own += u64::from(body.give(Side::Draw, i, i)) + u64::from(body.give(Side::Tip, i, i));
    }
    own
}

// The same, with the number of desks written out, so that the compiler lays out a loop for each. Not for all: with calls for all eight numbers the output
// tests as it runs whether lists and bytes overlap, and does nothing several at a time.
pub(crate) fn read_rows_of(body: Body<'_>, totals: &mut Totals) -> u64
    requires { RowsRead (pile_of body) body.n 0 totals.old }
    ensures own { result ≡ own_gives body.entry }
    ensures totals { RowsRead (pile_of body.entry) body.entry.n body.entry.n totals.new }
{
    match body.n {
        1 => read_rows(body.written_out(1), totals),
        2 => read_rows(body.written_out(2), totals),
        3 => read_rows(body.written_out(3), totals),
        4 => read_rows(body.written_out(4), totals),
        8 => read_rows(body.written_out(8), totals),
        _ => read_rows(body, totals),
    }
}

// Is each number in the row of desk i within the limit of a tally? Nothing leaves the loop: by `all`, with a closure, a body whose credits come to more than
// the limit took nearly twice as long.
fn row_within(body: Body<'_>, i: u8) -> bool
    requires { i < body.n }
    ensures { result ≡ row_small body.entry i }
{
    let mut within = true;
    for c in 0..columns_of(body.n) {
        if TALLY_LIMIT < u64::from(body.cell(i + 1, c)) {
            within = false;
        }
    }
    within
}

// Is each tally of n rows within its limit?
pub(crate) fn rows_within(body: Body<'_>) -> bool
    ensures { result ≡ every body.entry.n (row_small body.entry) }
{
    (0..body.n).all(|i| row_within(body, i))
}
