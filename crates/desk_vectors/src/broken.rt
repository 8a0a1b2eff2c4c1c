// Books of two desks and two piles that are refused, and openings of them: each number of the table.
use crate::act;
use crate::takes::{LENGTH, h};
use book::check;
use opening::open;
use refusal::answer;
use samples::{first, with};
use std::io;

// Pile 9's body starts at 88, and its rows at 112 and 136. Its top set to 7: the shares do not add up.
pub(crate) fn opening_wrong(book: [u8; LENGTH]) -> [u8; LENGTH] {
    with(book, 92, 7)
}

// Desk 0 has tipped 1,000,000,001.
pub(crate) fn tally_over(book: [u8; LENGTH]) -> [u8; LENGTH] {
    let b = with(book, 112, 1);
    let b = with(b, 113, 202);
    let b = with(b, 114, 154);
    with(b, 115, 59)
}

// Desk 1 gives 1 of its draw rights to itself.
pub(crate) fn give_to_itself(book: [u8; LENGTH]) -> [u8; LENGTH] {
    with(book, 148, 1)
}

// Desk 0 has drawn 2 with a draw share of 1.
pub(crate) fn rights_negative(book: [u8; LENGTH]) -> [u8; LENGTH] {
    with(book, 116, 2)
}

fn line(rt: &impl Print, label: &str, book: &[u8]) -> io::Result<()> {
    println!(rt; "{label}: {}", answer(check(book)))
}

// Heads that are wrong, each at one byte.
fn heads(rt: &impl Print, h: [u8; LENGTH]) -> io::Result<()> {
    let b = with(h, 0, 2);
    line(rt, "check version 2", &b)?;
    let b = with(h, 1, 0);
    line(rt, "check no desks", &b)?;
    let b = with(h, 1, 9);
    line(rt, "check 9 desks", &b)?;
    let b = with(h, 2, 0);
    line(rt, "check no piles", &b)?;
    let b = with(h, 2, 33);
    line(rt, "check 33 piles", &b)?;
    let b = with(h, 3, 1);
    line(rt, "check a fourth byte of 1", &b)
}

// Lengths, and contents.
fn contents(rt: &impl Print, h: [u8; LENGTH]) -> io::Result<()> {
    line(rt, "check 3 bytes", first(&h, 3))?;
    line(rt, "check 159 bytes", first(&h, 159))?;
    let b = with(h, 2, 1);
    line(rt, "check 160 bytes of one pile", &b)?;
    let b = with(h, 1, 3);
    line(rt, "check 160 bytes of three desks", &b)?;
    let b = with(h, 4, 0);
    line(rt, "check pile number 0", &b)?;
    let b = with(h, 10, 5);
    line(rt, "check pile number 5 twice", &b)?;
    let b = with(h, 12, 16);
    line(rt, "check a wrong position", &b)
}

// Bodies; in the last the first pile's rights are negative too, and the first pile counts.
fn bodies(rt: &impl Print, h: [u8; LENGTH]) -> io::Result<()> {
    let b = opening_wrong(h);
    line(rt, "check a wrong opening of 9", &b)?;
    let b = tally_over(h);
    line(rt, "check a tally over its limit", &b)?;
    let b = give_to_itself(h);
    line(rt, "check a give to itself", &b)?;
    let b = rights_negative(h);
    line(rt, "check negative rights", &b)?;
    let b = opening_wrong(with(h, 44, 5));
    line(rt, "check negative rights of 5, a wrong opening of 9", &b)
}

// The first in table order, where two are wrong.
fn orders(rt: &impl Print, h: [u8; LENGTH]) -> io::Result<()> {
    let b = with(with(h, 0, 2), 10, 5);
    line(rt, "check a wrong version and pile number", &b)?;
    line(rt, "check 3 bytes of them", first(&b, 3))?;
    let b = with(h, 10, 5);
    line(rt, "check a wrong length and pile number", first(&b, 159))?;
    let b = opening_wrong(with(h, 10, 5));
    line(rt, "check a wrong pile number and opening", &b)?;
    let b = opening_wrong(tally_over(h));
    line(rt, "check a wrong opening and tally", &b)?;
    let b = tally_over(rights_negative(h));
    line(rt, "check a wrong tally and negative rights", &b)
}

// An opening in a buffer of 160 bytes of 7.
fn opens(rt: &impl Print, label: &str, n: u8, p: u8, numbers: &[u32]) -> io::Result<()> {
    act(rt, label, [7u8; LENGTH], |out| open(n, p, numbers, out))?;
    Ok(())
}

fn sizes(rt: &impl Print) -> io::Result<()> {
    let numbers = [5, 10, 50, 4, 6, 20, 10, 9, 0, 8, 1, 2, 3, 2];
    opens(rt, "open", 2, 2, &numbers)?;
    opens(rt, "open for no desks", 0, 2, &numbers)?;
    opens(rt, "open for 9 desks", 9, 2, &numbers)?;
    opens(rt, "open no piles", 2, 0, &numbers)?;
    opens(rt, "open 33 piles", 2, 33, &numbers)?;
    opens(rt, "open for 3 desks", 3, 2, &numbers)?;
    let long = [5, 10, 50, 4, 6, 20, 10, 9, 0, 8, 1, 2, 3, 2, 0];
    opens(rt, "open from 15 numbers", 2, 2, &long)?;
    let short = [5, 10, 50, 4, 6, 20, 10, 9, 0, 8, 1, 2, 3];
    opens(rt, "open from 13 numbers", 2, 2, &short)
}

fn lists(rt: &impl Print) -> io::Result<()> {
    let falling = [9, 0, 8, 1, 2, 3, 2, 5, 10, 50, 4, 6, 20, 10];
    opens(rt, "open with falling pile numbers", 2, 2, &falling)?;
    let twice = [5, 10, 50, 4, 6, 20, 10, 5, 0, 8, 1, 2, 3, 2];
    opens(rt, "open with pile number 5 twice", 2, 2, &twice)?;
    let none = [0, 10, 50, 4, 6, 20, 10, 9, 0, 8, 1, 2, 3, 2];
    opens(rt, "open with pile number 0", 2, 2, &none)?;
    let most = [5, 10, 50, 4, 6, 20, 10, 65536, 0, 8, 1, 2, 3, 2];
    opens(rt, "open with pile number 65536", 2, 2, &most)?;
    let both = [5, 10, 50, 4, 6, 20, 11, 5, 0, 8, 1, 2, 3, 2];
    opens(rt, "open with a wrong opening, and 5 twice", 2, 2, &both)?;
    let former = [5, 10, 50, 4, 6, 20, 11, 9, 0, 8, 1, 2, 3, 2];
    opens(rt, "open with a wrong opening of 5", 2, 2, &former)?;
    let latter = [5, 10, 50, 4, 6, 20, 10, 9, 0, 8, 1, 2, 3, 1];
    opens(rt, "open with a wrong opening of 9", 2, 2, &latter)?;
    let above = [5, 10, 50, 4, 6, 20, 10, 9, 10000001, 10000001, 0, 0, 0, 0];
    opens(rt, "open with a top over its limit", 2, 2, &above)
}

// Buffers of other lengths: one byte less, and with a wrong opening too; three bytes more, which stay.
fn buffers(rt: &impl Print) -> io::Result<()> {
    let numbers = [5, 10, 50, 4, 6, 20, 10, 9, 0, 8, 1, 2, 3, 2];
    let label = "open in 159 bytes";
    act(rt, label, [7u8; 159], |out| open(2, 2, &numbers, out))?;
    let latter = [5, 10, 50, 4, 6, 20, 10, 9, 0, 8, 1, 2, 3, 1];
    let label = "open in 159 bytes with a wrong opening of 9";
    act(rt, label, [7u8; 159], |out| open(2, 2, &latter, out))?;
    let label = "open in 163 bytes";
    act(rt, label, [7u8; 163], |out| open(2, 2, &numbers, out))?;
    Ok(())
}

pub(crate) fn run(rt: &impl Print) -> io::Result<()> {
    let h = h();
    line(rt, "check H", &h)?;
    heads(rt, h)?;
    contents(rt, h)?;
    bodies(rt, h)?;
    orders(rt, h)?;
    sizes(rt)?;
    lists(rt)?;
    buffers(rt)
}
