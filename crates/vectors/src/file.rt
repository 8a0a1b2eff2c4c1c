// The worked book's file F: opened, read, and with an act on its pile stored; then lengths. Each line has the call and its answer.
use book::{body, check, draw_rights, tip_rights, tonnage};
use layout::lengths::body_length;
use opening::open;
use pile::Pile;
use refusal::{Refusal, answer};
use samples::{amount, first};
use std::io;
use store::{fetch, store};

fn number(rt: &impl Print, label: &str, x: usize) -> io::Result<()> {
    println!(rt; "{label}: {x}")
}

fn told(rt: &impl Print, label: &str, told: Result<(), Refusal>) -> io::Result<()> {
    println!(rt; "{label}: {}", answer(told))
}

fn reply(rt: &impl Print, label: &str, reply: Result<u32, Refusal>) -> io::Result<()> {
    print!(rt; "{label}:")?;
    amount(rt, reply)?;
    println!(rt;)
}

// What a book of one pile 7 says of it.
fn queries(rt: &impl Print, book: &[u8]) -> io::Result<()> {
    reply(rt, "tonnage of 7", tonnage(book, 7))?;
    reply(rt, "tonnage of 8", tonnage(book, 8))?;
    reply(rt, "draw rights of desk 0", draw_rights(book, 0, 7))?;
    reply(rt, "tip rights of desk 0", tip_rights(book, 0, 7))?;
    reply(rt, "tip rights of desk 2", tip_rights(book, 2, 7))?;
    reply(rt, "tip rights of desk 3", tip_rights(book, 3, 7))?;
    reply(rt, "tip rights of desk 3 in 8", tip_rights(book, 3, 8))?;
    number(rt, "bytes of 7", body(book, 7).len())?;
    number(rt, "bytes of 8", body(book, 8).len())
}

fn put_back(
    rt: &impl Print,
    label: &str,
    book: &mut [u8],
    number: u16,
    pile: Pile,
) -> io::Result<()> {
    told(rt, label, store(book, number, pile))
}

// A record fetched, acted on and stored again; then one whose opening differs. Nothing here is refused but the last.
fn stored(rt: &impl Print, book: &mut [u8]) -> io::Result<()> {
    let fetched = fetch(book, 7);
    println!(rt; "fetch 7: {}", answer(fetched.map(|_| ())))?;
    let acted = fetched.unwrap_or(Pile::zero()).tip(0, 30);
    told(rt, "desk 0 tips 30", acted.answer)?;
    put_back(rt, "store 7", book, 7, acted.pile)?;
    let mut other = acted.pile;
    other.shares[8] = 30;
    other.shares[9] = 40;
    put_back(rt, "store 7 with other shares", book, 7, other)
}

// Opens F in a lent buffer.
fn open_f(rt: &impl Print, label: &str, out: &mut [u8]) -> io::Result<()> {
    let numbers = [7, 10, 110, 0, 0, 0, 40, 30, 30];
    told(rt, label, open(3, 1, &numbers, out))
}

fn checked(rt: &impl Print, book: &[u8]) -> io::Result<()> {
    told(rt, "check F", check(book))
}

// F, in its 138 bytes.
fn worked(rt: &impl Print) -> io::Result<()> {
    let mut out = [0u8; 138];
    open_f(rt, "open F", &mut out)?;
    checked(rt, &out)?;
    queries(rt, &out)?;
    stored(rt, &mut out)?;
    queries(rt, &out)
}

// One byte less, and one more: the last is not the book's.
fn lengths(rt: &impl Print) -> io::Result<()> {
    let mut short = [9u8; 137];
    open_f(rt, "open F in 137 bytes", &mut short)?;
    checked(rt, &short)?;
    let mut long = [9u8; 139];
    open_f(rt, "open F in 139 bytes", &mut long)?;
    checked(rt, &long)
}

// The check of a book's first bytes alone.
fn check_first(rt: &impl Print, label: &str, book: &[u8], count: usize) -> io::Result<()> {
    told(rt, label, check(first(book, count)))
}

// The shortest book, and less of it.
fn least(rt: &impl Print) -> io::Result<()> {
    let numbers = [1, 0, 0, 0, 0];
    let mut out = [0u8; 42];
    told(
        rt,
        "open one pile of one desk",
        open(1, 1, &numbers, &mut out),
    )?;
    check_first(rt, "check its 42 bytes", &out, 42)?;
    check_first(rt, "check 41 of them", &out, 41)?;
    check_first(rt, "check 3 of them", &out, 3)
}

// How long a body is: the site manual's page, of 1 to 8 desks, and what lies outside it.
fn body_sizes(rt: &impl Print) -> io::Result<()> {
    for n in [0, 1, 2, 3, 4, 5, 6, 7, 8, 9, 255] {
        let word = if n == 1 { "desk" } else { "desks" };
        println!(rt; "body of {n} {word}: {}", body_length(n))?;
    }
    Ok(())
}

pub(crate) fn run(rt: &impl Print) -> io::Result<()> {
    worked(rt)?;
    lengths(rt)?;
    least(rt)?;
    body_sizes(rt)
}
