// A body of n desks read into a record's places: 8 for each kind of shares and gives, of which those past n are 0.
ghost use Rattle.std.specs.Prelude.{◌≡◌, ◌+◌, ◌*◌};
ghost use Rattle.std.proofs.lemmas.List.Edits.{sets};
ghost use Rattle.rules.specs.Loops.{list};
ghost use Rattle.rules.specs.Numbers.{number};
ghost use Rattle.rules.specs.Layout.{body_view};
ghost use Rattle.rules.specs.Record.{record_of};
ghost use Rattle.padding.specs.Inner.{RunFits, RowsClear};
ghost use Rattle.padding.specs.Lists.{body_numbers};

use crate::{ROW, TIPS};
use layout::cells::cell_at;
use layout::lengths::{NUMBER, row_length};
use layout::side::Side;
use number::get4;

// Reads count numbers from a position on into the places of a list from one on. Of a part of 4 bytes a number is read without a test.
fn pad_run(out: &mut [u32], to: usize, bytes: &[u8], from: usize, count: usize)
    requires { RunFits to count out.old from (count * 4) bytes.now }
    ensures { out.new ≡ sets out.old to (list count (λ k. number 4 bytes.now (from + k * 4))) }
{
    for k in 0..count {
        let at = from + k * NUMBER;
        out[to + k] = get4(&bytes[at..at + NUMBER], 0);
    }
}

// Reads the opening and the rows of the body at a position, each into 18 places that are 0. The opening is laid out as a row is.
pub(crate) fn pad_rows(out: &mut [u32], bytes: &[u8], n: u8, at: usize)
    requires { RowsClear n at bytes.now out.old }
    ensures { out.new ≡ body_numbers (record_of n (body_view n bytes.now at)) }
{
    // As many columns stand before those of tip.
    let front = Side::Tip.column(n, 0);
    let tips = cell_at(n, 0, front);
    let size = row_length(n);
    let mut from = at;
    for r in 0..=n {
        let to = usize::from(r) * ROW;
        pad_run(out, to, bytes, from, usize::from(front));
        pad_run(out, to + TIPS, bytes, from + tips, usize::from(n));
        from += size;
    }
}
