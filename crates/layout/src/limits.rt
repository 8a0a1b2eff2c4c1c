// The limits of document 01, each said once.
// The most desks and the most piles of a book.
pub const DESKS: usize = 8;

pub const PILES: usize = 32;

// The highest pile number.
pub const LAST_NUMBER: u32 = 65_535;

// The most that a top, a tally and the amount of an act may be.
pub const TOP_LIMIT: u64 = 10_000_000;

pub const TALLY_LIMIT: u64 = 1_000_000_000;

pub const AMOUNT_LIMIT: u32 = 1_000;
