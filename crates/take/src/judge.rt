// Whether a copy is taken: the lines of document 01's table for a take, in their order.
ghost use Rattle.std.specs.Prelude.{◌≡◌, ◌+◌, ◌≤◌, false, replicate, OnOk};
ghost use Rattle.rules.specs.Layout.{head_of};
ghost use Rattle.rules.specs.Take.{take_answer};
ghost use Rattle.refusal.specs.Answers.{number_of, answered};
ghost use Rattle.take.specs.Inner.{AllMarked};

use book::check;
use layout::contents::entry_number;
use layout::head::{ENTRY, Head, entry_at, front_length, head_of};
use layout::lengths::{ROWS, body_length, row_length};
use refusal::Refusal;
use rows::{Comparison, compare};

// Two books side by side, the taker's own and the copy, and the head that tells where their rows stand.
#[derive(Clone, Copy)]
struct Books<'a> {
    own: &'a [u8],
    copy: &'a [u8],
    head: Head,
}

impl<'a> Books<'a> {
    ghost use Rattle.std.specs.Prelude.{◌≡◌, ◌+◌, replicate, false, Ok, IfOk, OnOk};
    ghost use Rattle.rules.specs.Loops.{every};
    ghost use Rattle.rules.specs.Refusals.{first};
    ghost use Rattle.rules.specs.Rows.{is_copy_later};
    ghost use Rattle.rules.specs.Take.{row_answer};
    ghost use Rattle.refusal.specs.Answers.{answered};
    ghost use Rattle.rows.specs.Comparisons.{as_comparison};
    ghost use Rattle.layout.specs.Positions.{as_head};
    ghost use Rattle.take.specs.Inner.{RowInBoth, Alongside, PilesAhead, DesksAhead, rows_there, desk_told, same_pile, PilesMarked};

    // Compares the rows at one position of both books.
    fn compare_at(self, at: usize, row: usize) -> Comparison
        requires { RowInBoth at row self.own.now self.copy.now }
        ensures { as_comparison (Ok result) ≡ rows_there self.entry at row }
    {
        // Rows of readable books have a row's length.
        compare(&self.own[at..at + row], &self.copy[at..at + row]).unwrap()
    }

    // Whether the copy's row at a position is later, or its refusal: 31 where the rows are split; 32 where they are those of the taker's own desk, as `takers`
    // says, and the copy's is later.
    #[tactic(auto, using(crate::proofs::RowAnswers::row_told))]
    fn judge_row(self, at: usize, row: usize, takers: bool) -> Result<bool, Refusal>
        requires { RowInBoth at row self.own.now self.copy.now }
        ensures answer { answered result ≡ row_answer takers (rows_there self.entry at row) }
        ensures later { IfOk result (λ later. later ≡ is_copy_later (rows_there self.entry at row)) }
    {
        match self.compare_at(at, row) {
            Comparison::Alike | Comparison::MineLater => Ok(false),
            Comparison::CopyLater if takers => Err(Refusal::OwnRowBehind),
            Comparison::CopyLater => Ok(true),
            Comparison::Split => Err(Refusal::RowsSplit),
        }
    }

    // The first refusal of the rows of pile k, desk by desk: they stand behind its opening. Where there is none, each has its mark.
    fn desks_answer(self, k: u8, desk: u8, marks: &mut [bool; ROWS]) -> Result<(), Refusal>
        requires { DesksAhead self k marks.old }
        ensures answer { answered result ≡ first self.entry.head.desks (desk_told self.entry desk k) }
        ensures marks { OnOk result (PilesMarked self.entry (k + 1) marks.new) }
    {
        let front = front_length(self.head);
        let row = row_length(self.head.desks);
        let first = usize::from(k) * (usize::from(self.head.desks) + 1) + 1;
        for i in 0..self.head.desks {
            let place = first + usize::from(i);
            marks[place] = self.judge_row(front + place * row, row, i == desk)?;
        }
        Ok(())
    }

    // The first refusal of all rows, by pile and then by desk; where there is none, the marks say which rows are later in the copy. Rows go by their number
    // in file order, openings among them: those are alike, and not looked at again.
    fn piles_answer(self, desk: u8, marks: &mut [bool; ROWS]) -> Result<(), Refusal>
        requires piles { PilesAhead (as_head self.head) self.own.now self.copy.now }
        requires blank { marks.old ≡ replicate 288 false }
        ensures answer { answered result ≡ first self.entry.head.piles (λ k. first self.entry.head.desks (desk_told self.entry desk k)) }
        ensures marks { OnOk result (PilesMarked self.entry self.entry.head.piles marks.new) }
    {
        for k in 0..self.head.piles {
            self.desks_answer(k, desk, marks)?;
        }
        Ok(())
    }

    // Do the pile numbers and the opening rows agree, pile by pile?
    fn same_piles(self) -> bool
        requires { Alongside (as_head self.head) self.own.now self.copy.now }
        ensures { result ≡ every self.entry.head.piles (same_pile self.entry) }
    {
        let size = body_length(self.head.desks);
        let row = row_length(self.head.desks);
        // Bodies are passed one after the other, and of an entry that is a slice the number is read without a test.
        let mut at = front_length(self.head);
        for k in 0..self.head.piles {
            let entry = entry_at(k);
            if entry_number(&self.own[entry..entry + ENTRY])
                != entry_number(&self.copy[entry..entry + ENTRY])
                || self.compare_at(at, row) != Comparison::Alike
            {
                return false;
            }
            at += size;
        }
        true
    }
}

// What a copy is refused with, where a book is refused with this.
fn of_copy(refusal: Refusal) -> Refusal
    ensures { number_of refusal ≤ 7 → number_of result ≡ 20 + number_of refusal }
{
    match refusal {
        Refusal::BookShort => Refusal::CopyShort,
        Refusal::HeadWrong => Refusal::CopyHeadWrong,
        Refusal::LengthWrong => Refusal::CopyLengthWrong,
        Refusal::ContentsWrong => Refusal::CopyContentsWrong,
        Refusal::OpeningUnlawful => Refusal::CopyOpeningUnlawful,
        Refusal::TallyWrong => Refusal::CopyTallyWrong,
        Refusal::RightsNegative => Refusal::CopyRightsNegative,
        // No book is refused with another.
        other => other,
    }
}

// All lines of the table, in their order; where none is met, the marks say which rows are later in the copy.
pub(crate) fn take_answer(
    own: &[u8],
    copy: &[u8],
    desk: u8,
    marks: &mut [bool; ROWS],
) -> Result<(), Refusal>
    requires { marks.old ≡ replicate 288 false }
    ensures answer { answered result ≡ take_answer desk own.now copy.now }
    ensures marks { OnOk result (AllMarked (head_of own.now) own.now copy.now marks.new) }
{
    check(own)?;
    check(copy).map_err(of_copy)?;
    let head = head_of(own);
    if head.desks <= desk {
        return Err(Refusal::DeskAbsent);
    }
    let other = head_of(copy);
    let books = Books { own, copy, head };
    if head.desks != other.desks || head.piles != other.piles || !books.same_piles() {
        return Err(Refusal::OpeningDiffers);
    }
    books.piles_answer(desk, marks)
}
