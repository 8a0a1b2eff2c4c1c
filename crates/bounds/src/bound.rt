// The bound that a desk's rights of a side keep: nobody else can draw what it may draw, nor fill the space that it may fill. The side is a parameter.
ghost use Rattle.std.specs.Prelude.{◌≡◌, ℕ, ◌+◌, ◌≤◌, ◌<◌, get_or};
ghost use Rattle.rules.specs.Loops.{list};
ghost use Rattle.rules.specs.Layout.{desk_limit};
ghost use Rattle.rules.specs.Record.{padded};
ghost use Rattle.layout.specs.Sides.{as_side};
ghost use Rattle.bounds.specs.Inner.{kept};

use layout::limits::DESKS;
use layout::side::Side;

// Floor and draw rights, or top less tip rights.
pub(crate) fn bound_of(side: Side, floor: u32, top: u32, rights: u32) -> u32
    requires { floor + rights ≤ top }
    ensures { result ≡ kept (as_side side) floor top rights }
{
    match side {
        Side::Draw => floor + rights,
        Side::Tip => top - rights,
    }
}

// The bounds of n desks, from the rights of each.
#[tactic(auto, using(rules::proofs::Record::Padded::padded_next), unfolding(rules::specs::Loops::list, rules::specs::Loops::flat))]
pub(crate) fn bounds_of(
    side: Side,
    floor: u32,
    top: u32,
    rights: [u32; DESKS],
    n: u8,
) -> [u32; DESKS]
    requires { (n ≤ desk_limit) × ((i : ℕ) → i < n → floor + get_or rights i 0 ≤ top) }
    ensures { result ≡ list desk_limit (padded n (λ i. kept (as_side side) floor top (get_or rights i 0))) }
{
    let mut bounds = [0u32; DESKS];
    for i in 0..usize::from(n) {
        bounds[i] = bound_of(side, floor, top, rights[i]);
    }
    bounds
}
