// Where the numbers of a body stand: in which column of a row, and at which position from the body's start.
ghost use Rattle.std.specs.Prelude.{◌≡◌};
ghost use Rattle.rules.specs.Pile.{side_of};
ghost use Rattle.rules.specs.Layout.{columns, earned_column, column, cell_at};

use crate::lengths::{NUMBER, row_length};
use crate::side::Side;

// The numbers of a row of n desks.
pub fn columns_of(n: u8) -> u16
    ensures { result ≡ columns n }
{
    2 + (u16::from(n) + u16::from(n))
}

// The columns of a side that is told by its number: 0 for draw, any other for tip.
pub fn earned_column(side: u8) -> u16
    ensures { result ≡ earned_column (side_of side) }
{
    Side::from(side).earned_column()
}

pub fn side_column(n: u8, side: u8, j: u8) -> u16
    ensures { result ≡ column n (side_of side) j }
{
    Side::from(side).column(n, j)
}

// Where a number of a row stands in a body of n desks.
#[tactic(auto, unfolding(rules::specs::Layout::cell_at))]
pub fn cell_at(n: u8, row: u8, column: u16) -> usize
    ensures { result ≡ cell_at n row column }
{
    usize::from(row) * row_length(n) + usize::from(column) * NUMBER
}
