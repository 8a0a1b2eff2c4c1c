// A list's record written as a body: of its 8 places for each kind of shares and gives the first n.
ghost use Rattle.std.specs.Prelude.{◌≡◌, suc, ◌+◌, ◌*◌, get_or};
ghost use Rattle.std.proofs.lemmas.List.Edits.{sets};
ghost use Rattle.rules.specs.Loops.{flat, list};
ghost use Rattle.rules.specs.Numbers.{encode};
ghost use Rattle.padding.specs.Inner.{RunFits, RowsFit, packed_row};

use crate::{OPENING_AT, ROW, TIPS};
use layout::cells::cell_at;
use layout::lengths::{NUMBER, row_length};
use layout::side::Side;
use number::put4;

// Writes count numbers of a list, from a place on, into bytes from a position on. Into a part of 4 bytes a number is written without a test.
fn pack_run(bytes: &mut [u8], at: usize, numbers: &[u32], from: usize, count: usize)
    requires { RunFits at (count * 4) bytes.old from count numbers.now }
    ensures { bytes.new ≡ sets bytes.old at (encode (list count (λ k. get_or numbers.now (from + k) 0))) }
{
    for k in 0..count {
        let to = at + k * NUMBER;
        put4(&mut bytes[to..to + NUMBER], 0, numbers[from + k]).unwrap();
    }
}

// Writes the opening and the rows of n desks at a position. The opening is laid out as a row is.
pub(crate) fn pack_rows(bytes: &mut [u8], at: usize, numbers: &[u32], n: u8)
    requires { RowsFit n at bytes.old numbers.now }
    ensures { bytes.new ≡ sets bytes.old at (flat (suc n) (λ r. encode (packed_row n numbers.now r))) }
{
    // As many columns stand before those of tip.
    let front = Side::Tip.column(n, 0);
    let tips = cell_at(n, 0, front);
    let size = row_length(n);
    let mut to = at;
    for r in 0..=n {
        let from = OPENING_AT + usize::from(r) * ROW;
        pack_run(bytes, to, numbers, from, usize::from(front));
        pack_run(bytes, to + tips, numbers, from + TIPS, usize::from(n));
        to += size;
    }
}
