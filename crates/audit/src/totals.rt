// What the account of a body adds up, of each desk and side.
use layout::limits::DESKS;

// Of each side a number for each desk.
#[derive(Clone, Copy)]
pub(crate) struct BothSides {
    pub draw: [u64; DESKS],
    pub tip: [u64; DESKS],
}

// What each desk has, its share and then what it got, and what it gave. They are made once for many bodies, and lent for each. What is received stands before
// all that is given: so the compiler sees that storing what one desk gave changes no total that is received, and keeps those in registers.
#[derive(Clone, Copy)]
pub(crate) struct Totals {
    pub received: BothSides,
    pub given: BothSides,
}

impl Totals {
    pub(crate) fn new() -> Totals {
        let none = BothSides {
            draw: [0; DESKS],
            tip: [0; DESKS],
        };
        Totals {
            received: none,
            given: none,
        }
    }
}
