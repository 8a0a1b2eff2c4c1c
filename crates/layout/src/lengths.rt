// How long the parts of a book are, in bytes.
ghost use Rattle.std.specs.Prelude.{◌≡◌};
ghost use Rattle.rules.specs.Layout.{row_length};
ghost use Rattle.rules.specs.Opening.{body_size};
ghost use Rattle.rules.specs.Rows.{is_row_length};

use crate::limits::{DESKS, PILES};

// A number of a body.
pub const NUMBER: usize = 4;

// The length of a body for 1 to 8 desks, in the order of the site manual's page. No other source has these lengths, or a rule for them.
const BODY_LENGTHS: [u16; DESKS] = [32, 72, 128, 200, 288, 392, 512, 648];

// The last of them, for whoever needs room for any body.
pub const LONGEST_BODY: usize = 648;

// The most rows of a book: for each pile its opening, and a row of each desk behind it.
pub const ROWS: usize = PILES * (DESKS + 1);

// A book of as many desks and piles as there can be.
pub const LONGEST_BOOK: usize = 20_932;

// The length of a body of n desks; 0 where no book has n desks.
pub fn body_length(n: u8) -> usize
    ensures { result ≡ body_size n }
{
    let desks = usize::from(n);
    if desks < 1 || DESKS < desks {
        return 0;
    }
    usize::from(BODY_LENGTHS[desks - 1])
}

// The length of a row of n desks: two numbers, and one of each side for each desk.
#[tactic(auto, unfolding(rules::specs::Layout::row_length))]
pub fn row_length(n: u8) -> usize
    ensures { result ≡ row_length n }
{
    2 * NUMBER * (usize::from(n) + 1)
}

// Is it the length of a row of 1 to 8 desks?
pub fn is_row_length(len: usize) -> bool
    ensures { result ≡ is_row_length len }
{
    len % 8 == 0 && (16..=72).contains(&len)
}
