// The longest book: 8 desks and 32 piles in 20,932 bytes. Pile k has floor 0, top 16 and all 16 shares 1.
use crate::{acted, alike, pile_of, rights, taken};
use desk::{draw, tip};
use layout::head::book_length;
use layout::lengths::LONGEST_BOOK;
use opening::open;
use refusal::Refusal;
use samples::longest_list;
use std::io;

// The tonnage of pile 32, and the rights of desks 0, 1 and 7.
fn pile_32(rt: &impl Print, book: &[u8]) -> io::Result<()> {
    pile_of(rt, book, 32)?;
    rights(rt, book, 7, 32)?;
    println!(rt;)
}

// As the crate's `act`, but that its line ends with what the copy tells of pile 32.
fn act<F: FnOnce(&mut [u8]) -> Result<(), Refusal>>(
    rt: &impl Print,
    label: &str,
    before: [u8; LONGEST_BOOK],
    act: F,
) -> io::Result<[u8; LONGEST_BOOK]>
    requires { F.IsAlwaysCallable act }
{
    let book = acted(rt, label, before, act)?;
    pile_32(rt, &book)?;
    Ok(book)
}

fn opened(rt: &impl Print) -> io::Result<[u8; LONGEST_BOOK]> {
    let numbers = longest_list();
    act(
        rt,
        "open the longest book",
        [0u8; LONGEST_BOOK],
        |book| open(8, 32, &numbers, book),
    )
}

// Desk 7 tips onto pile 32; what it then draws is past its rights.
fn spent(rt: &impl Print, fresh: [u8; LONGEST_BOOK]) -> io::Result<[u8; LONGEST_BOOK]> {
    let book = act(rt, "desk 7 tips 1 onto 32", fresh, |b| tip(b, 7, 32, 1))?;
    act(rt, "desk 7 draws 3 from 32", book, |b| draw(b, 7, 32, 3))
}

fn takes(
    rt: &impl Print,
    label: &str,
    own: [u8; LONGEST_BOOK],
    copy: [u8; LONGEST_BOOK],
    desk: u8,
) -> io::Result<[u8; LONGEST_BOOK]> {
    let book = taken(rt, label, own, &copy, desk)?;
    pile_32(rt, &book)?;
    Ok(book)
}

pub(crate) fn run(rt: &impl Print) -> io::Result<()> {
    println!(rt; "length for 8 desks and 32 piles: {}", book_length(8, 32))?;
    let fresh = opened(rt)?;
    let copy = spent(rt, fresh)?;
    // Desk 0 takes the copy into the book as opened; desk 7 may not.
    takes(rt, "desk 7 takes its own later row", fresh, copy, 7)?;
    let book = takes(rt, "desk 0 takes it", fresh, copy, 0)?;
    alike(rt, "the copy and the taken book", &copy, &book)
}
