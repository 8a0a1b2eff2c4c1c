// The places of a list's record past n: all of them are 0.
ghost use Rattle.std.specs.Prelude.{◌≡◌, ◌+◌, ◌-◌, ◌≤◌, length, get_or, eqb};
ghost use Rattle.rules.specs.Loops.{◌and◌, every};
ghost use Rattle.rules.specs.Layout.{desk_limit};
ghost use Rattle.rules.specs.Record.{record_view, tips_place, unused_shares, unused_places};
ghost use Rattle.padding.specs.Lists.{numbers_record};

use crate::{OPENING_AT, RECORD, ROW, TALLIES_AT, TIPS};

// Are all numbers of a list 0? Nothing leaves the loop, so that the compiler does several at once.
fn all_zero(numbers: &[u32]) -> bool
    ensures { result ≡ every (length numbers.now) (λ k. eqb (get_or numbers.now k 0) 0) }
{
    let mut zero = true;
    for number in numbers {
        if *number != 0 {
            zero = false;
        }
    }
    zero
}

// Is a row 0 past n, in its draw half and in its tip half?
fn row_padding_zero(row: &[u32; ROW], n: usize) -> bool
    requires { n ≤ desk_limit }
    ensures { result ≡ every (desk_limit - n) (λ k. eqb (get_or row.now (2 + n + k) 0) 0) and every (desk_limit - n) (λ k. eqb (get_or row.now (tips_place + n + k) 0) 0) }
{
    all_zero(&row[2 + n..TIPS]) && all_zero(&row[TIPS + n..])
}

// The shares past n.
pub(crate) fn opening_padding_zero(numbers: &[u32; RECORD], n: usize) -> bool
    requires { n ≤ desk_limit }
    ensures { result ≡ unused_shares n (record_view (numbers_record numbers.now)) }
{
    row_padding_zero(numbers[OPENING_AT..TALLIES_AT].as_array().unwrap(), n)
}

// The gives to desks past n, and the rows of those desks. A loop, since a closure for `all` would have to ask of its rows what the test asks.
pub(crate) fn rows_padding_zero(numbers: &[u32; RECORD], n: usize) -> bool
    requires { n ≤ desk_limit }
    ensures { result ≡ unused_places n (record_view (numbers_record numbers.now)) }
{
    for i in 0..n {
        let at = TALLIES_AT + i * ROW;
        if !row_padding_zero(numbers[at..at + ROW].as_array().unwrap(), n) {
            return false;
        }
    }
    all_zero(&numbers[TALLIES_AT + n * ROW..])
}
