// What comparing two rows of a desk tells.
ghost use Rattle.std.specs.Prelude.{◌≡◌, Ok};
ghost use Rattle.rules.specs.Refusals.{value};
ghost use Rattle.rules.specs.Rows.{compared, order_reply};
ghost use Rattle.rows.specs.Comparisons.{as_comparison};
ghost use Rattle.pitbook.specs.Queries.{answer_of, value_of};

use crate::told::hand_out;
use rows::{Comparison, compare};

// A comparison as the number that a caller is told.
fn order_number(comparison: Comparison) -> u32
    ensures { value result ≡ order_reply (as_comparison (Ok comparison)) }
{
    match comparison {
        Comparison::Alike => 1,
        Comparison::MineLater => 2,
        Comparison::CopyLater => 3,
        Comparison::Split => 4,
    }
}

// The order of two rows into a lent number: 1 where they are alike, 2 where mine is later, 3 where the copy's is, 4 where they are split; refused with 3
// where they differ in length or have the length of no row.
pub fn pit_compare(mine: &[u8], copy: &[u8], order: &mut u32) -> u8
    ensures answer { result ≡ answer_of (order_reply (compared mine.now copy.now)) }
    ensures order { order.new ≡ value_of (order_reply (compared mine.now copy.now)) order.old }
{
    hand_out(compare(mine, copy).map(order_number), order)
}
