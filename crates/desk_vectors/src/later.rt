// Two rows compared, and the one that is handed on: its length and its first byte.
use refusal::Refusal;
use rows::{Comparison, compare, later_row};
use std::io;

fn order(rt: &impl Print, told: Result<Comparison, Refusal>) -> io::Result<()> {
    match told {
        Ok(Comparison::Alike) => print!(rt; " alike"),
        Ok(Comparison::MineLater) => print!(rt; " mine later"),
        Ok(Comparison::CopyLater) => print!(rt; " the copy's later"),
        Ok(Comparison::Split) => print!(rt; " split"),
        Err(refusal) => print!(rt; " refused {}", u8::from(refusal)),
    }
}

fn handed(rt: &impl Print, row: &[u8]) -> io::Result<()> {
    match row.first() {
        Some(byte) => print!(rt; " bytes {} from {byte}", row.len()),
        None => print!(rt; " empty"),
    }
}

fn line(rt: &impl Print, label: &str, a: &[u8], b: &[u8]) -> io::Result<()> {
    print!(rt; "{label}:")?;
    order(rt, compare(a, b))?;
    handed(rt, later_row(a, b))?;
    println!(rt;)
}

// A row of two desks with these numbers, each below 256.
fn row(tipped: u8, drawn: u8, draw_give: u8, tip_give: u8) -> [u8; 24] {
    let mut r = [0u8; 24];
    r[0] = tipped;
    r[4] = drawn;
    r[8] = draw_give;
    r[16] = tip_give;
    r
}

fn two(rt: &impl Print, label: &str, a: [u8; 24], b: [u8; 24]) -> io::Result<()> {
    line(rt, label, &a, &b)
}

fn of_two_desks(rt: &impl Print) -> io::Result<()> {
    let early = row(5, 2, 3, 4);
    let late = row(6, 2, 3, 4);
    let last = row(5, 2, 3, 5);
    two(rt, "rows alike", early, early)?;
    two(rt, "rows, the copy's later", early, late)?;
    two(rt, "rows, mine later", late, early)?;
    two(rt, "rows, the copy's later at its last give", early, last)?;
    two(rt, "rows split", late, last)?;
    two(rt, "rows split, the other way", last, late)
}

// The numbers are compared, not their bytes: 256 is more than 255.
fn of_numbers(rt: &impl Print) -> io::Result<()> {
    let low = row(255, 2, 3, 4);
    let mut high = row(0, 2, 3, 4);
    high[1] = 1;
    two(rt, "rows of 255 and 256", low, high)
}

// Of two lengths, and of lengths that no book has.
fn of_lengths(rt: &impl Print) -> io::Result<()> {
    let two = [1u8; 24];
    let three = [1u8; 32];
    line(rt, "rows of 24 and 32 bytes", &two, &three)?;
    line(rt, "rows of 32 and 24 bytes", &three, &two)?;
    let none = [1u8; 8];
    line(rt, "rows of 8 bytes", &none, &none)?;
    let one = [1u8; 16];
    line(rt, "rows of 16 bytes", &one, &one)?;
    let eight = [1u8; 72];
    line(rt, "rows of 72 bytes", &eight, &eight)?;
    let nine = [1u8; 80];
    line(rt, "rows of 80 bytes", &nine, &nine)?;
    let odd = [1u8; 25];
    line(rt, "rows of 25 bytes", &odd, &odd)
}

pub(crate) fn run(rt: &impl Print) -> io::Result<()> {
    of_two_desks(rt)?;
    of_numbers(rt)?;
    of_lengths(rt)
}
