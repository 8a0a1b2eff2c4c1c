// The head of a book, and where by it the contents and the bodies stand.
ghost use Rattle.std.specs.Prelude.{◌≡◌, suc, ◌*◌};
ghost use Rattle.rules.specs.Layout.{head_for, sizes_in_range, entry_at, front_length};
ghost use Rattle.rules.specs.Opening.{buffer_length};
ghost use Rattle.rules.specs.Book.{head_sound};
ghost use Rattle.layout.specs.Positions.{as_head, head_in, body_position};

use crate::lengths::body_length;
use crate::limits::{DESKS, PILES};

// The version that is read and written.
const VERSION: u8 = 1;

// The bytes of a head, and of an entry of the contents: a pile number in 2, and a position in 4.
pub const HEAD: usize = 4;

pub const ENTRY: usize = 6;

#[derive(Clone, Copy, Debug, PartialEq, Eq)]
pub struct Head {
    pub version: u8,
    pub desks: u8,
    pub piles: u8,
    pub fourth: u8,
}

// The head of a book; all zeros where there are fewer than 4 bytes.
#[tactic(auto, unfolding(crate::specs::Positions::head_in))]
pub fn head_of(book: &[u8]) -> Head
    ensures { as_head result ≡ head_in book.now }
{
    if book.len() < HEAD {
        return Head {
            version: 0,
            desks: 0,
            piles: 0,
            fourth: 0,
        };
    }
    Head {
        version: book[0],
        desks: book[1],
        piles: book[2],
        fourth: book[3],
    }
}

// The head of a book of n desks and p piles, as it is written.
pub fn head_for(n: u8, p: u8) -> Head
    ensures { as_head result ≡ head_for n p }
{
    Head {
        version: VERSION,
        desks: n,
        piles: p,
        fourth: 0,
    }
}

// 1 to 8 desks, 1 to 32 piles.
#[tactic(auto, unfolding(rules::specs::Layout::sizes_in_range, rules::proofs::Cases::Table::open_loops))]
pub fn sizes_in_range(n: u8, p: u8) -> bool
    ensures { result ≡ sizes_in_range n p }
{
    (1..=DESKS).contains(&usize::from(n)) && (1..=PILES).contains(&usize::from(p))
}

// Version 1, sizes in range, 0.
#[tactic(auto, unfolding(rules::specs::Book::head_sound, rules::proofs::Cases::Table::open_loops))]
pub fn head_sound(head: Head) -> bool
    ensures { result ≡ head_sound (as_head head) }
{
    head.version == VERSION && sizes_in_range(head.desks, head.piles) && head.fourth == 0
}

// Where entry k of the contents stands.
pub fn entry_at(k: u8) -> usize
    ensures { result ≡ entry_at k }
{
    HEAD + usize::from(k) * ENTRY
}

// All before the bodies.
#[tactic(auto, unfolding(rules::specs::Layout::front_length))]
pub fn front_length(head: Head) -> usize
    ensures { result ≡ front_length (as_head head) }
{
    HEAD + usize::from(head.piles) * ENTRY
}

// Where body k starts; the book ends where a body p would. Of desks that no book has a body has no length.
#[tactic(auto, unfolding(crate::specs::Positions::body_position))]
pub fn body_at(head: Head, k: u8) -> usize
    ensures { result ≡ body_position (as_head head) k }
{
    front_length(head) + usize::from(k) * body_length(head.desks)
}

// How many rows stand behind the front: for each pile its opening, and a row of each desk.
pub fn rows_of(head: Head) -> usize
    ensures { result ≡ head.piles * suc head.desks }
{
    usize::from(head.piles) * (usize::from(head.desks) + 1)
}

// What a buffer for a book of n desks and p piles must hold: 0 where there is no such book.
#[tactic(auto, using(crate::proofs::Positions::position_is, rules::proofs::File::Readable::sizes_range), unfolding(rules::specs::Opening::buffer_length, rules::specs::Layout::book_length))]
pub fn book_length(n: u8, p: u8) -> usize
    ensures { result ≡ buffer_length n p }
{
    if !sizes_in_range(n, p) {
        return 0;
    }
    body_at(head_for(n, p), p)
}
