// The four acts as values, so that one function enters them all: tipping spends tip rights and drawing draw rights, and rights of each side are given.
ghost use Rattle.std.specs.Prelude.{◌≡◌};
ghost use Rattle.rules.specs.Layout.{act_column};
ghost use Rattle.rules.specs.Acts.{side, receiver_wrong};
ghost use Rattle.layout.specs.Sides.{as_side};
ghost use Rattle.act_lines.specs.Kinds.{kind_of};

use crate::receiver_wrong;
use layout::side::Side;

// A give has its receiver.
#[derive(Clone, Copy, Debug, PartialEq, Eq)]
pub enum Kind {
    Spend(Side),
    Give(Side, u8),
}

impl Kind {
    // The side whose rights the act needs.
    pub fn side(self) -> Side
        ensures { as_side result ≡ side (kind_of self) }
    {
        match self {
            Kind::Spend(side) | Kind::Give(side, _) => side,
        }
    }

    // A give's receiver is no desk, or the giver itself.
    pub fn receiver_wrong(self, n: u8, desk: u8) -> bool
        ensures { result ≡ receiver_wrong n desk (kind_of self) }
    {
        match self {
            Kind::Spend(_) => false,
            Kind::Give(_, receiver) => receiver_wrong(n, desk, receiver),
        }
    }

    // The column of the act's tally in a row of n desks. Spending rights of a side earns those of the other.
    pub fn column(self, n: u8) -> u16
        ensures { result ≡ act_column n (kind_of self) }
    {
        match self {
            Kind::Spend(side) => side.other().earned_column(),
            Kind::Give(side, receiver) => side.column(n, receiver),
        }
    }
}
