// Rights of a desk. The side is a parameter.
ghost use Rattle.std.specs.Prelude.{◌≡◌};
ghost use Rattle.rules.specs.Pile.{rights};
ghost use Rattle.rules.specs.Layout.{desks, body_view};
ghost use Rattle.layout.specs.Sides.{as_side};
ghost use Rattle.book.specs.Inner.{SoughtBody};

use crate::Sought;
use audit::side_rights;
use layout::side::Side;

// By the body that `seek` has found. It is sought by the callers: with that in it the function is too long to be inlined.
#[tactic(auto, using(crate::proofs::Bodies::rights_read, crate::proofs::Bodies::rights_small))]
pub(crate) fn rights_of(book: &[u8], side: Side, desk: u8, found: Sought) -> u32
    requires { SoughtBody desk book.now found.desks found.start }
    ensures { result ≡ rights (desks book.now) (body_view (desks book.now) book.now found.start) (as_side side) desk }
{
    side_rights(book, found.start as usize, found.desks, side, desk) as u32
}
