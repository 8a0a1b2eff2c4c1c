// The contents of a book: checked against its head, and searched for a pile.
ghost use Rattle.std.specs.Prelude.{◌≡◌, ◌<◌, IfSome, IfNone};
ghost use Rattle.rules.specs.Book.{contents_sound};
ghost use Rattle.layout.specs.Positions.{as_head};
ghost use Rattle.book.specs.Inner.{EntriesWithin, Contents, place_among};

use layout::contents::{entry_number, entry_position};
use layout::head::{ENTRY, Head, entry_at, front_length};
use layout::lengths::body_length;

// Pile numbers rise from above 0, and each position is where its body starts.
#[tactic(auto, using(crate::proofs::Entries::contents_loop), unfolding(rules::specs::Book::contents_sound))]
pub(crate) fn contents_sound(book: &[u8], head: Head) -> bool
    requires { Contents (as_head head) book.now }
    ensures { result ≡ contents_sound (as_head head) book.now }
{
    let size = body_length(head.desks);
    let mut expected = front_length(head);
    let mut last: u16 = 0;
    for k in 0..head.piles {
        let at = entry_at(k);
        let entry = &book[at..at + ENTRY];
        let number = entry_number(entry);
        if number <= last {
            return false;
        }
        if entry_position(entry) as usize != expected {
            return false;
        }
        last = number;
        expected += size;
    }
    true
}

// Where a pile number stands in the contents of p piles.
pub(crate) fn place_of(book: &[u8], p: u8, number: u16) -> Option<u8>
    requires { EntriesWithin p book.now }
    ensures found { IfSome result (λ k. (k < p) × (k ≡ place_among p book.now number)) }
    ensures absent { IfNone result (place_among p book.now number ≡ p) }
{
    (0..p).find(|k| {
        let at = entry_at(*k);
        entry_number(&book[at..at + ENTRY]) == number
    })
}
