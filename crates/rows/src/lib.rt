// Two rows of a desk, each in a slice of bytes: which of them is later, and the later one handed on.
#![tactic(auto)]

ghost use Rattle.std.specs.Prelude.{◌≡◌, cond};
ghost use Rattle.rules.specs.Rows.{compared, is_copy_later, later_row};
ghost use Rattle.rows.specs.Comparisons.{as_comparison};

use layout::lengths::{NUMBER, is_row_length};
use number::get4;
use refusal::Refusal;

// What comparing two rows tells: they are alike, mine is later, the copy's is, or they are split.
#[derive(Clone, Copy, Debug, PartialEq, Eq)]
pub enum Comparison {
    Alike,
    MineLater,
    CopyLater,
    Split,
}

// Compares the numbers of my row with those at the same places of the copy's, in one pass: is each row at least the other at every place? A row that
// is, where the other is not, is the later one: it dominates the other in the product order. Where neither is, the rows are split, a fork. Refused
// with 3 where the rows differ in length or have a length other than 8(n + 1) bytes for an n from 1 to 8.
pub fn compare(mine: &[u8], copy: &[u8]) -> Result<Comparison, Refusal>
    ensures { as_comparison result ≡ compared mine.now copy.now }
{
    if !is_row_length(mine.len()) || mine.len() != copy.len() {
        return Err(Refusal::LengthWrong);
    }
    let places = mine.len() / NUMBER;
    // Each row has been at least the other at every place so far.
    let mut mine_above = true;
    let mut copy_above = true;
    for c in 0..places {
        // Of a part of 4 bytes a number is read without a test, and the compiler compares several at once.
        let at = c * NUMBER;
        let x = get4(&mine[at..at + NUMBER], 0);
        let y = get4(&copy[at..at + NUMBER], 0);
        if x < y {
            mine_above = false;
        }
        if y < x {
            copy_above = false;
        }
    }
    Ok(match (mine_above, copy_above) {
        (true, true) => Comparison::Alike,
        (true, false) => Comparison::MineLater,
        (false, true) => Comparison::CopyLater,
        (false, false) => Comparison::Split,
    })
}

// The later of two rows, handed on as that part of whichever book has it; of two alike rows the first. Empty, at the first row's start, where the
// rows are split or cannot be compared.
pub fn later_row<'a>(mine: &'a [u8], copy: &'a [u8]) -> &'a [u8]
    ensures bytes { result.now ≡ later_row mine.now copy.now }
    ensures place { result.ref_ptr ≡ cond (is_copy_later (compared mine.now copy.now)) copy.entry.ref_ptr mine.entry.ref_ptr }
{
    match compare(mine, copy) {
        // Of two alike rows the first is handed on.
        Ok(Comparison::Alike | Comparison::MineLater) => mine,
        Ok(Comparison::CopyLater) => copy,
        Ok(Comparison::Split) | Err(_) => &mine[..0],
    }
}
