// Writing the later rows of a copy into the taker's book, and counting them.
ghost use Rattle.std.specs.Prelude.{◌≡◌, false, cond, ◌+◌, ◌*◌, ◌≤◌, length, get_or, count_by};
ghost use Rattle.std.proofs.lemmas.List.Edits.{sets};
ghost use Rattle.rules.specs.Loops.{flat};
ghost use Rattle.rules.specs.Numbers.{part};
ghost use Rattle.take.specs.Inner.{InBoth, RowsInBoth};

// Copies count bytes over those at the same position. A loop, since `copy_from_slice` is `memmove` here, which the archive needs from outside for nothing else.
fn copy_bytes(own: &mut [u8], copy: &[u8], at: usize, count: usize)
    requires { InBoth at count own.old copy.now }
    ensures { own.new ≡ sets own.old at (part at count copy.now) }
{
    for k in 0..count {
        own[at + k] = copy[at + k];
    }
}

// How many rows are marked? A book has few enough that their number fits.
pub(crate) fn count_marks(marks: &[bool]) -> u32
    requires { length marks.now ≤ 288 }
    ensures { result ≡ count_by (λ later. later) marks.now }
{
    marks.iter().filter(|later| **later).count() as u32
}

// Row after row, from a position on: those that are marked become the copy's.
pub(crate) fn take_rows(own: &mut [u8], copy: &[u8], at: usize, row: usize, marks: &[bool])
    requires { RowsInBoth at row (length marks.now) own.old copy.now }
    ensures { own.new ≡ sets own.old at (flat (length marks.now) (λ k.
        cond (get_or marks.now k false) (part (at + k * row) row copy.now) (part (at + k * row) row own.old))) }
{
    for (k, later) in marks.iter().enumerate() {
        if *later {
            copy_bytes(own, copy, at + k * row, row);
        }
    }
}
