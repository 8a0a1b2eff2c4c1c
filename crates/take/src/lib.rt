// The take of another desk's copy into the own book, a state-based merge. Both books are checked whole first; a take writes the rows that are later in the
// copy, and a refused call nothing.
#![tactic(auto)]

mod judge;
mod merge;

ghost use Rattle.std.specs.Prelude.{◌≡◌, IfOk};
ghost use Rattle.rules.specs.Take.{take_answer, after_take, take_report};
ghost use Rattle.refusal.specs.Answers.{answered};

use judge::take_answer;
use layout::head::{front_length, head_of, rows_of};
use layout::lengths::{ROWS, row_length};
use merge::{count_marks, take_rows};
use refusal::Refusal;

// Takes a copy of another desk's book into the own one, a state-based merge; refused with 1 to 7 for the own book, 21 to 27 for the copy, then 11, 30,
// and by pile and desk 31 or 32. No row is written before the last pile is judged. A copy that changes no row leaves the book's bytes as they were.
pub fn take(own: &mut [u8], copy: &[u8], desk: u8) -> Result<u32, Refusal>
    ensures answer { answered result ≡ take_answer desk own.old copy.now }
    ensures changed { IfOk result (λ changed. changed ≡ take_report desk own.old copy.now) }
    ensures book { own.new ≡ after_take desk own.old copy.now }
{
    // They are lent to those who set them: handed back by value, a take of a small book took half as long again.
    let mut marks = [false; ROWS];
    take_answer(own, copy, desk, &mut marks)?;
    let head = head_of(own);
    let rows = rows_of(head);
    let later = &marks[..rows];
    let changed = count_marks(later);
    // Where no row is later, none is gone over again.
    if changed != 0 {
        take_rows(own, copy, front_length(head), row_length(head.desks), later);
    }
    Ok(changed)
}
