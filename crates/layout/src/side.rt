// The two sides of a pile: rights to draw from it, down to its floor, and rights to tip onto it, up to its top.
ghost use Rattle.std.specs.Prelude.{◌≡◌};
ghost use Rattle.rules.specs.Pile.{side_of, other};
ghost use Rattle.rules.specs.Layout.{earned_column, column};
ghost use Rattle.layout.specs.Sides.{as_side};

#[derive(Clone, Copy, Debug, PartialEq, Eq)]
pub enum Side {
    Draw,
    Tip,
}

// A side by its number: 0 for draw, any other for tip.
impl From<u8> for Side {
    ghost from_gives = { λ number side. as_side side ≡ side_of number };

    fn from(number: u8) -> Side {
        if number == 0 { Side::Draw } else { Side::Tip }
    }
}

impl Side {
    // Whose rights are earned by spending rights of this side.
    pub fn other(self) -> Side
        ensures { as_side result ≡ other (as_side self) }
    {
        match self {
            Side::Draw => Side::Tip,
            Side::Tip => Side::Draw,
        }
    }

    // The column of what earned a desk rights of the side: what it tipped, or what it drew. The opening has floor and top there.
    pub fn earned_column(self) -> u16
        ensures { result ≡ earned_column (as_side self) }
    {
        match self {
            Side::Draw => 0,
            Side::Tip => 1,
        }
    }

    // The column of the side's gives to desk j, and of its share of the side, in a row of n desks.
    pub fn column(self, n: u8, j: u8) -> u16
        ensures { result ≡ column n (as_side self) j }
    {
        match self {
            Side::Draw => 2 + u16::from(j),
            Side::Tip => 2 + (u16::from(n) + u16::from(j)),
        }
    }
}
