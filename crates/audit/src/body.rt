// A body where it stands, and its numbers.
ghost use Rattle.std.specs.Prelude.{◌≡◌, ◌+◌, ◌≤◌, length};
ghost use Rattle.rules.specs.Numbers.{number};
ghost use Rattle.layout.specs.Inner.{BodyWithin};

use crate::rights::body_there;
use layout::cells::cell_at;
use layout::lengths::NUMBER;
use layout::side::Side;
use number::get4;

// The bytes start with it, and it is of n desks.
#[derive(Clone, Copy)]
pub(crate) struct Body<'a> {
    pub bytes: &'a [u8],
    pub n: u8,
    ghost whole: { BodyWithin n 0 bytes.now },
}

impl<'a> Body<'a> {
    ghost use Rattle.std.specs.Prelude.{◌≡◌, ◌≤◌, ◌<◌, length, IfSome, is_some};
    ghost use Rattle.rules.specs.Numbers.{number};
    ghost use Rattle.rules.specs.Layout.{columns, earned_column, cell_at, body_view};
    ghost use Rattle.layout.specs.Inner.{BodyWithin};
    ghost use Rattle.layout.specs.Sides.{as_side};
    ghost use Rattle.audit.specs.Audits.{body_there};
    ghost use Rattle.audit.specs.Inner.{pile_of};

    // The body at a position where one is known to be there: nothing is tested.
    #[tactic(auto, using(layout::proofs::Views::view_from))]
    pub(crate) fn at(bytes: &'a [u8], at: usize, n: u8) -> Body<'a>
        requires { BodyWithin n at bytes.now }
        ensures { (result.n ≡ n) × (pile_of result ≡ body_view n bytes.now at) }
    {
        Body {
            bytes: &bytes[at..],
            n,
        }
    }

    // The body of n desks at a position, if one is there.
    #[tactic(auto, using(crate::proofs::There::there_within))]
    pub(crate) fn of(bytes: &'a [u8], at: usize, n: u8) -> Option<Body<'a>>
        ensures there { is_some result ≡ body_there n at (length bytes.now) }
        ensures body { IfSome result (λ b. (b.n ≡ n) × (pile_of b ≡ body_view n bytes.now at)) }
    {
        if !body_there(bytes.len(), at, n) {
            return None;
        }
        Some(Body::at(bytes, at, n))
    }

    // The same, its number of desks written out.
    pub(crate) fn written_out(self, n: u8) -> Body<'a>
        requires { n ≡ self.n }
        ensures { result ≡ self.entry }
    {
        Body {
            bytes: self.bytes,
            n,
        }
    }

    // The number of a row and a column.
    #[tactic(auto, using(rules::proofs::File::Cells::cell_fits))]
    pub(crate) fn cell(self, row: u8, column: u16) -> u32
        requires { (row ≤ self.n) × (column < columns self.n) }
        ensures { result ≡ number 4 self.entry.bytes.now (cell_at self.entry.n row column) }
    {
        word(self.bytes, cell_at(self.n, row, column))
    }

    // What rights of a side reach to: the floor those to draw, the top those to tip.
    pub(crate) fn bound(self, side: Side) -> u32
        ensures { result ≡ number 4 self.entry.bytes.now (cell_at self.entry.n 0 (earned_column (as_side side))) }
    {
        self.cell(0, side.earned_column())
    }

    // Desk j's share of a side.
    pub(crate) fn share(self, side: Side, j: u8) -> u32
        requires { j < self.n }
        ensures { result ≡ (pile_of self.entry).share (as_side side) j }
    {
        self.cell(0, side.column(self.n, j))
    }

    // What desk i gave desk j of a side.
    pub(crate) fn give(self, side: Side, i: u8, j: u8) -> u32
        requires { (i < self.n) × (j < self.n) }
        ensures { result ≡ (pile_of self.entry).give (as_side side) i j }
    {
        self.cell(i + 1, side.column(self.n, j))
    }

    // What earned desk i rights of a side: what it tipped, or what it drew.
    pub(crate) fn earned(self, side: Side, i: u8) -> u32
        requires { i < self.n }
        ensures { result ≡ (pile_of self.entry).earned (as_side side) i }
    {
        self.cell(i + 1, side.earned_column())
    }
}

// The number at a position. Of a part of 4 bytes it is read without a test.
#[tactic(auto, using(rules::proofs::Bytes::Numbers::number_read))]
pub(crate) fn word(bytes: &[u8], at: usize) -> u32
    requires { at + 4 ≤ length bytes.now }
    ensures { result ≡ number 4 bytes.now at }
{
    get4(&bytes[at..at + NUMBER], 0)
}
