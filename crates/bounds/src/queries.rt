// The bound of one desk, asked of a record and of a book. The side is a parameter.
ghost use Rattle.std.specs.Prelude.{◌≡◌};
ghost use Rattle.rules.specs.Layout.{desks, body_view};
ghost use Rattle.rules.specs.Bounds.{bound, record_bound_reply};
ghost use Rattle.layout.specs.Sides.{as_side};
ghost use Rattle.pile.specs.View.{as_record};
ghost use Rattle.pile.specs.Replies.{as_reply};
ghost use Rattle.book.specs.Inner.{SoughtBody};

use crate::bound::bound_of;
use audit::side_rights;
use book::Sought;
use layout::cells::cell_at;
use layout::lengths::row_length;
use layout::side::Side;
use number::get4;
use pile::Pile;
use refusal::Refusal;

// By the rights that keep the bound, and refused as they are.
#[tactic(auto, using(crate::proofs::Replies::record_told))]
pub(crate) fn record_bound(pile: Pile, side: Side, desk: u8) -> Result<u32, Refusal>
    ensures { as_reply result ≡ record_bound_reply (as_side side) desk (as_record pile) }
{
    let rights = pile.rights(side, desk)?;
    Ok(bound_of(side, pile.floor, pile.top, rights))
}

// By the rights and the opening of the body that `seek` has found. It is sought by the callers, as for the rights: with that in it the function is too long
// to be inlined.
#[tactic(auto, using(crate::proofs::Replies::opening_read))]
pub(crate) fn book_bound(book: &[u8], side: Side, desk: u8, found: Sought) -> u32
    requires { SoughtBody desk book.now found.desks found.start }
    ensures { result ≡ bound (desks book.now) (body_view (desks book.now) book.now found.start) (as_side side) desk }
{
    let n = found.desks;
    let start = found.start as usize;
    let rights = side_rights(book, start, n, side, desk) as u32;
    // Of a part that is known to be there a number is read without a test.
    let opening = &book[start..start + row_length(n)];
    let floor = get4(opening, cell_at(n, 0, Side::Draw.earned_column()));
    let top = get4(opening, cell_at(n, 0, Side::Tip.earned_column()));
    bound_of(side, floor, top, rights)
}
