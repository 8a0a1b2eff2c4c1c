// The contents of a book, filled into a local list of entries that is lent and handed back.
ghost use Rattle.std.specs.Prelude.{◌≡◌};
ghost use Rattle.rules.specs.Book.{contents_answer, after_contents};
ghost use Rattle.refusal.specs.Answers.{answered};
ghost use Rattle.lent.specs.Entries.{entry_of};

use lent::{Entry, contents};
use refusal::Refusal;

// The answer, and the list beside it: what is shown of a refused call is that it stays.
pub(crate) fn filled<const N: usize>(
    book: &[u8],
    start: [Entry; N],
) -> (Result<(), Refusal>, [Entry; N])
    ensures answer { answered result.0 ≡ contents_answer book.now N }
    ensures entries { result.1 ≡ after_contents entry_of book.now start.entry }
{
    let mut entries = start;
    let told = contents(book, &mut entries);
    (told, entries)
}
