// The contents of a book: an entry for each pile, its number and where its body starts.
ghost use Rattle.std.specs.Prelude.{◌≡◌};
ghost use Rattle.rules.specs.Layout.{pile_number, position};
ghost use Rattle.layout.specs.Positions.{as_head, entry_number, entry_position, put_head_answer, after_put_head, put_entry_answer, after_put_entry};
ghost use Rattle.refusal.specs.Answers.{answered};

use crate::head::{ENTRY, HEAD, Head, body_at, entry_at};
use number::{get2, get4, put2, put4};
use refusal::Refusal;

// Where in an entry the position stands.
const POSITION: usize = 2;

// The pile number of an entry, and where the entry says that the pile's body starts. Bytes that are not there count as 0. Of an entry that is known to have
// its bytes they are read without a test.
#[tactic(auto, unfolding(crate::specs::Positions::entry_number))]
pub fn entry_number(entry: &[u8]) -> u16
    ensures { result ≡ entry_number entry.now }
{
    get2(entry, 0)
}

#[tactic(auto, unfolding(crate::specs::Positions::entry_position))]
pub fn entry_position(entry: &[u8]) -> u32
    ensures { result ≡ entry_position entry.now }
{
    get4(entry, POSITION)
}

// The same of entry k of a book.
#[tactic(auto, unfolding(rules::specs::Layout::pile_number))]
pub fn pile_number(book: &[u8], k: u8) -> u16
    ensures { result ≡ pile_number book.now k }
{
    get2(book, entry_at(k))
}

#[tactic(auto, unfolding(rules::specs::Layout::position))]
pub fn position(book: &[u8], k: u8) -> u32
    ensures { result ≡ position book.now k }
{
    get4(book, entry_at(k) + POSITION)
}

// Writes a head at the start of a buffer; refused with 8 where it has no room, and nothing is written then.
#[tactic(auto, unfolding(rules::specs::Layout::head_bytes, crate::specs::Positions::put_head_answer, crate::specs::Positions::after_put_head, rules::proofs::Cases::Table::open_refusals))]
pub fn put_head(out: &mut [u8], head: Head) -> Result<(), Refusal>
    ensures answer { answered result ≡ put_head_answer out.old }
    ensures out { out.new ≡ after_put_head (as_head head) out.old }
{
    if out.len() < HEAD {
        return Err(Refusal::BufferShort);
    }
    out[0] = head.version;
    out[1] = head.desks;
    out[2] = head.piles;
    out[3] = head.fourth;
    Ok(())
}

// Writes entry k of a book with this head: a pile's number, and where its body starts; refused with 8 where it has no room, and nothing is written then.
pub fn put_entry(out: &mut [u8], head: Head, k: u8, number: u16) -> Result<(), Refusal>
    ensures answer { answered result ≡ put_entry_answer k out.old }
    ensures out { out.new ≡ after_put_entry (as_head head) k number out.old }
{
    let at = entry_at(k);
    if out.len() < at + ENTRY {
        return Err(Refusal::BufferShort);
    }
    put2(out, at, number)?;
    put4(out, at + POSITION, body_at(head, k) as u32)
}
