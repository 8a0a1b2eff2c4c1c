// The contents of a book, filled into two lists that the caller lends.
ghost use Rattle.std.specs.Prelude.{◌≡◌};
ghost use Rattle.pitbook.specs.Contents.{lists_answer, after_numbers, after_positions};

use pitbook::contents;

// The contents of a book, in its order; refused with 1 to 7 or, where either list is shorter than the contents, 8. Entries past the contents stay.
#[unsafe(no_mangle)]
pub extern "C" fn pit_contents(book: &[u8], numbers: &mut [u32], positions: &mut [u32]) -> u8
    ensures answer { result ≡ lists_answer book.now numbers.old positions.old }
    ensures numbers { numbers.new ≡ after_numbers book.now numbers.old positions.old }
    ensures positions { positions.new ≡ after_positions book.now numbers.old positions.old }
{
    contents::pit_contents(book, numbers, positions)
}
