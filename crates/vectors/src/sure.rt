// What each desk can be sure of: the least and the most tonnes of a pile, asked of records and of books, and what is refused.
ghost use Rattle.std.specs.Prelude.{◌<◌};

use crate::{fresh, with_tally};
use audit::accounts::Account;
use bounds::{Bounded, bounds_in, least, most, pile_least, pile_most};
use opening::open;
use pile::{PLACES, Pile};
use refusal::Refusal;
use samples::{amount, first};
use std::io;
use store::store;

// G has 138 bytes: its body starts at 10, and desk 0's row at 42.
const BYTES: usize = 138;

const BODY: usize = 10;

fn told(
    rt: &impl Print,
    label: &str,
    low: Result<u32, Refusal>,
    high: Result<u32, Refusal>,
) -> io::Result<()> {
    print!(rt; "{label}: least")?;
    amount(rt, low)?;
    print!(rt; " most")?;
    amount(rt, high)?;
    println!(rt;)
}

fn of_record(rt: &impl Print, label: &str, pile: Pile, desk: u8) -> io::Result<()> {
    told(rt, label, pile_least(pile, desk), pile_most(pile, desk))
}

fn of_book(rt: &impl Print, label: &str, book: &[u8], desk: u8, number: u16) -> io::Result<()> {
    told(
        rt,
        label,
        least(book, desk, number),
        most(book, desk, number),
    )
}

fn entries(rt: &impl Print, word: &str, list: [u32; PLACES]) -> io::Result<()> {
    print!(rt; " {word}")?;
    for tonnes in list {
        print!(rt; " {tonnes}")?;
    }
    Ok(())
}

// The account of the body of n desks at a position, and the bounds of all desks, at all 8 places; of a refused body all is 0.
fn all_of(rt: &impl Print, label: &str, bytes: &[u8], at: usize, n: u8) -> io::Result<()> {
    let none = [0; PLACES];
    let zero = Account {
        floor: 0,
        top: 0,
        tonnage: 0,
        draw: none,
        tip: none,
    };
    let (number, found) = match bounds_in(bytes, at, n) {
        Ok(found) => (0, found),
        Err(refusal) => (
            u8::from(refusal),
            Bounded {
                held: zero,
                least: none,
                most: none,
            },
        ),
    };
    let held = found.held;
    print!(rt;
        "{label}: {number} floor {} top {} known {}",
        held.floor, held.top, held.tonnage
    )?;
    entries(rt, "draw", held.draw)?;
    entries(rt, "tip", held.tip)?;
    entries(rt, "least", found.least)?;
    entries(rt, "most", found.most)?;
    println!(rt;)
}

// The desks of F and of G, and of a pile with no room between floor and top.
fn records(rt: &impl Print, g: Pile) -> io::Result<()> {
    let shares = [0, 0, 0, 0, 0, 0, 0, 0, 40, 30, 30, 0, 0, 0, 0, 0];
    let f = fresh(3, 10, 110, shares).pile;
    of_record(rt, "F, desk 0", f, 0)?;
    of_record(rt, "F, desk 1", f, 1)?;
    of_record(rt, "F, desk 2", f, 2)?;
    of_record(rt, "G, desk 0", g, 0)?;
    of_record(rt, "G, desk 1", g, 1)?;
    of_record(rt, "G, desk 2", g, 2)?;
    let full = fresh(2, 10000000, 10000000, [0; 16]).pile;
    of_record(rt, "floor is top, desk 0", full, 0)?;
    of_record(rt, "floor is top, desk 1", full, 1)
}

// A record's own refusal comes before that of the desk.
fn refused_records(rt: &impl Print, g: Pile) -> io::Result<()> {
    let mut turned = g;
    turned.top = 9;
    of_record(rt, "the record of all zeros", Pile::zero(), 0)?;
    of_record(rt, "floor above top", turned, 0)?;
    of_record(rt, "tipped above its limit", with_tally(0, 1000000001), 0)?;
    of_record(rt, "drawn beyond rights", with_tally(19, 1), 0)?;
    of_record(rt, "drawn beyond rights, no desk", with_tally(19, 1), 2)?;
    of_record(rt, "G, no desk", g, 3)
}

// G's file: F opened, and G stored as its pile. Where either is refused, the lines below tell it.
fn file_of(g: Pile) -> [u8; BYTES] {
    let list = [7, 10, 110, 0, 0, 0, 40, 30, 30];
    let mut out = [0u8; BYTES];
    open(3, 1, &list, &mut out).ok();
    store(&mut out, 7, g).ok();
    out
}

// The desks of a book of one pile 7 of three desks. Desk 3 is none, which comes before pile 8 that is not there.
fn books(rt: &impl Print, book: &[u8]) -> io::Result<()> {
    of_book(rt, "file of G, desk 0", book, 0, 7)?;
    of_book(rt, "file of G, desk 1", book, 1, 7)?;
    of_book(rt, "file of G, desk 2", book, 2, 7)?;
    of_book(rt, "file of G, no desk", book, 3, 7)?;
    of_book(rt, "file of G, no desk, no pile", book, 3, 8)?;
    of_book(rt, "file of G, no pile", book, 0, 8)
}

// Their bodies' accounts. Of 2 desks a body with no room between floor and top is another's 72 bytes.
fn bodies(rt: &impl Print, book: &[u8]) -> io::Result<()> {
    all_of(rt, "all of G", book, BODY, 3)?;
    all_of(rt, "all of G, no desks", book, BODY, 0)?;
    all_of(rt, "all of G, nine desks", book, BODY, 9)?;
    all_of(rt, "all of G, one byte further", book, BODY + 1, 3)?;
    let list = [7, 10000000, 10000000, 0, 0, 0, 0];
    let mut full = [0u8; 82];
    open(2, 1, &list, &mut full).ok();
    all_of(rt, "all of a pile whose floor is its top", &full, BODY, 2)
}

// A book's first bytes alone.
fn of_first(rt: &impl Print, label: &str, book: &[u8], count: usize) -> io::Result<()> {
    of_book(rt, label, first(book, count), 0, 7)
}

// A book with one byte of it set. The book's own refusal comes before that of the desk, which is none.
fn spoiled(rt: &impl Print, label: &str, book: [u8; BYTES], at: usize, byte: u8) -> io::Result<()>
    requires { at < 138 }
{
    let mut other = book;
    other[at] = byte;
    of_book(rt, label, &other, 3, 7)?;
    all_of(rt, label, &other, BODY, 3)
}

fn refused_books(rt: &impl Print, book: [u8; BYTES]) -> io::Result<()> {
    of_first(rt, "3 bytes", &book, 3)?;
    spoiled(rt, "version 2", book, 0, 2)?;
    of_first(rt, "137 bytes", &book, 137)?;
    spoiled(rt, "body at 11", book, 6, 11)?;
    spoiled(rt, "top 9", book, 14, 9)?;
    spoiled(rt, "desk 0 gave itself 1", book, 50, 1)?;
    spoiled(rt, "desk 0 drew 11", book, 46, 11)
}

pub(crate) fn run(rt: &impl Print, g: Pile) -> io::Result<()> {
    records(rt, g)?;
    refused_records(rt, g)?;
    let book = file_of(g);
    books(rt, &book)?;
    bodies(rt, &book)?;
    refused_books(rt, book)
}
