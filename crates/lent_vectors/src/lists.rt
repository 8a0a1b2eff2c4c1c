// The longest book, of 32 piles: its contents in 34 lent entries and in 31, and the same of a book that is refused. Each line has the call, its
// answer, and some of the lent entries after it: the first two, the last that is filled, and those past the contents.
use crate::contents::filled;
use layout::lengths::LONGEST_BOOK;
use lent::Entry;
use opening::open;
use refusal::{Refusal, answer};
use samples::longest_list;
use std::io;

// What every lent entry is before a call.
const NUMBER: u16 = 65535;

const POSITION: u32 = 4294967295;

fn opened(rt: &impl Print) -> io::Result<[u8; LONGEST_BOOK]> {
    let numbers = longest_list();
    let mut book = [0u8; LONGEST_BOOK];
    let told = open(8, 32, &numbers, &mut book);
    println!(rt; "open the longest book: {}", answer(told))?;
    Ok(book)
}

fn blank() -> Entry {
    Entry {
        number: NUMBER,
        position: POSITION,
    }
}

// What filling the contents answered, and some of the lent entries after it.
fn shown(
    rt: &impl Print,
    label: &str,
    told: Result<(), Refusal>,
    entries: &[Entry],
    places: &[usize],
) -> io::Result<()> {
    print!(rt; "{label}: {}", answer(told))?;
    for at in places {
        if let Some(entry) = entries.get(*at) {
            print!(rt; ", {at}: {} at {}", entry.number, entry.position)?;
        }
    }
    println!(rt;)
}

fn of_34(rt: &impl Print, label: &str, book: &[u8]) -> io::Result<()> {
    let (told, entries) = filled(book, [blank(); 34]);
    shown(rt, label, told, &entries, &[0, 1, 31, 32, 33])
}

fn of_31(rt: &impl Print, label: &str, book: &[u8]) -> io::Result<()> {
    let (told, entries) = filled(book, [blank(); 31]);
    shown(rt, label, told, &entries, &[0, 1, 30])
}

pub(crate) fn run(rt: &impl Print) -> io::Result<()> {
    let mut book = opened(rt)?;
    of_34(rt, "contents in 34 entries", &book)?;
    of_31(rt, "contents in 31 entries", &book)?;
    book[0] = 2;
    of_34(rt, "a wrong version in 34 entries", &book)?;
    of_31(rt, "a wrong version in 31 entries", &book)
}
