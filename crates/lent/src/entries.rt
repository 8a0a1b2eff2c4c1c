// The contents of a book, filled into a list of entries that the caller lends.
ghost use Rattle.std.specs.Prelude.{◌≡◌, length};
ghost use Rattle.rules.specs.Book.{contents_answer, after_contents};
ghost use Rattle.lent.specs.Entries.{entry_of};
ghost use Rattle.refusal.specs.Answers.{answered};

use book::check;
use layout::contents::{pile_number, position};
use layout::head::head_of;
use refusal::Refusal;

// A line of the contents: a pile's number, and where its body starts.
#[derive(Clone, Copy, Debug, PartialEq, Eq)]
pub struct Entry {
    pub number: u16,
    pub position: u32,
}

// The contents of a book, in its order; refused with 1 to 7 or, where the list is shorter than the contents, 8. Entries past the contents stay, and all of
// them where it is refused.
pub fn contents(book: &[u8], entries: &mut [Entry]) -> Result<(), Refusal>
    ensures answer { answered result ≡ contents_answer book.now (length entries.old) }
    ensures entries { entries.new ≡ after_contents entry_of book.now entries.old }
{
    check(book)?;
    let piles = head_of(book).piles;
    if entries.len() < usize::from(piles) {
        return Err(Refusal::BufferShort);
    }
    for k in 0..piles {
        entries[usize::from(k)] = Entry {
            number: pile_number(book, k),
            position: position(book, k),
        };
    }
    Ok(())
}
