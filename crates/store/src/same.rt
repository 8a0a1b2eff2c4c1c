// What a stored record must have in common with its pile.
ghost use Rattle.std.specs.Prelude.{◌≡◌, ◌+◌, ◌*◌, length, get_or, eqb};
ghost use Rattle.rules.specs.Loops.{every};
ghost use Rattle.rules.specs.Numbers.{number};
ghost use Rattle.rules.specs.Pile.{same_opening};
ghost use Rattle.rules.specs.Layout.{body_view};
ghost use Rattle.rules.specs.Record.{record_view};
ghost use Rattle.padding.specs.Lists.{numbers_record};
ghost use Rattle.padding.specs.Inner.{RowsFit};

use layout::cells::cell_at;
use layout::lengths::NUMBER;
use layout::side::Side;
use number::get4;
use padding::{OPENING_AT, TIPS};

// Are the numbers of a list those of as many places of a book? Nothing leaves the loop, so that the compiler compares several at once.
fn same_run(book: &[u8], numbers: &[u32]) -> bool
    requires { length book.now ≡ length numbers.now * 4 }
    ensures { result ≡ every (length numbers.now) (λ k. eqb (get_or numbers.now k 0) (number 4 book.now (k * 4))) }
{
    let mut same = true;
    for (bytes, number) in book.chunks_exact(NUMBER).zip(numbers) {
        if *number != get4(bytes, 0) {
            same = false;
        }
    }
    same
}

// Do floor, top and the shares of n desks agree?
#[tactic(auto, using(crate::proofs::OpeningRuns::opening_row))]
pub(crate) fn same_opening(book: &[u8], at: usize, numbers: &[u32], n: u8) -> bool
    requires { RowsFit n at book.now numbers.now }
    ensures { result ≡ same_opening n (record_view (numbers_record numbers.now)) (body_view n book.now at) }
{
    // As many columns stand before those of tip.
    let front = Side::Tip.column(n, 0);
    let columns = usize::from(front);
    let desks = usize::from(n);
    let tips = at + cell_at(n, 0, front);
    let tip_shares = OPENING_AT + TIPS;
    same_run(
        &book[at..at + columns * NUMBER],
        &numbers[OPENING_AT..OPENING_AT + columns],
    ) && same_run(
        &book[tips..tips + desks * NUMBER],
        &numbers[tip_shares..tip_shares + desks],
    )
}
