// Books as bytes: the acts and the take on the worked book (`worked.rt`), on a book of two piles (`takes.rt`, `refused.rt`, `broken.rt`), on one of
// three (`news.rt`) and on the longest (`longest.rt`), and two rows compared (`later.rt`). Each line has the call, its answer, and what it left of the lent bytes.
#![tactic(auto)]

mod broken;
mod later;
mod longest;
mod news;
mod refused;
mod takes;
mod worked;

use book::{draw_rights, tip_rights, tonnage};
use refusal::{Refusal, answer};
use samples::amount;
use std::io;
use take::take;

// A sum over the bytes that tells their places too: each byte counts once for itself and once for each byte after it.
fn sum(bytes: &[u8]) -> u64 {
    let mut once: u64 = 0;
    let mut sum: u64 = 0;
    for byte in bytes {
        once = once.wrapping_add(u64::from(*byte));
        sum = sum.wrapping_add(once);
    }
    sum
}

// Whether the bytes after a call are those before it, with their sum.
fn left(rt: &impl Print, before: &[u8], after: &[u8]) -> io::Result<()> {
    let word = if before == after {
        "unaltered"
    } else {
        "altered"
    };
    print!(rt; " {word} {}", sum(after))
}

// A call, its answer, and what it left.
pub(crate) fn outcome(
    rt: &impl Print,
    label: &str,
    told: Result<(), Refusal>,
    before: &[u8],
    after: &[u8],
) -> io::Result<()> {
    print!(rt; "{label}: {}", answer(told))?;
    left(rt, before, after)
}

// A call on a copy of a book, and the copy after it.
pub(crate) fn acted<const N: usize, F: FnOnce(&mut [u8]) -> Result<(), Refusal>>(
    rt: &impl Print,
    label: &str,
    before: [u8; N],
    act: F,
) -> io::Result<[u8; N]>
    requires { F.IsAlwaysCallable act }
{
    let mut book = before;
    let told = act(&mut book);
    outcome(rt, label, told, &before, &book)?;
    Ok(book)
}

// The same, and the end of its line.
pub(crate) fn act<const N: usize, F: FnOnce(&mut [u8]) -> Result<(), Refusal>>(
    rt: &impl Print,
    label: &str,
    before: [u8; N],
    act: F,
) -> io::Result<[u8; N]>
    requires { F.IsAlwaysCallable act }
{
    let book = acted(rt, label, before, act)?;
    println!(rt;)?;
    Ok(book)
}

// A take and its answer: the refusal's number or 0, and how many rows changed, 0 beside a refusal; then the bytes as above.
pub(crate) fn reported(
    rt: &impl Print,
    label: &str,
    told: Result<u32, Refusal>,
    before: &[u8],
    after: &[u8],
) -> io::Result<()> {
    match told {
        Ok(changed) => print!(rt; "{label}: 0 reports {changed}")?,
        Err(refusal) => print!(rt; "{label}: {} reports 0", u8::from(refusal))?,
    }
    left(rt, before, after)
}

// A take into a copy of a book, and the copy after it.
pub(crate) fn taken<const N: usize>(
    rt: &impl Print,
    label: &str,
    own: [u8; N],
    copy: &[u8],
    desk: u8,
) -> io::Result<[u8; N]> {
    let mut book = own;
    let told = take(&mut book, copy, desk);
    reported(rt, label, told, &own, &book)?;
    Ok(book)
}

// The same, and the end of its line.
pub(crate) fn takes_bytes<const N: usize>(
    rt: &impl Print,
    label: &str,
    own: [u8; N],
    copy: &[u8],
    desk: u8,
) -> io::Result<[u8; N]> {
    let book = taken(rt, label, own, copy, desk)?;
    println!(rt;)?;
    Ok(book)
}

// Two books compared.
pub(crate) fn alike(rt: &impl Print, label: &str, a: &[u8], b: &[u8]) -> io::Result<()> {
    let word = if a == b { "alike" } else { "not alike" };
    println!(rt; "{label}: {word}")
}

// What a book says of a pile: its tonnage, and the draw and tip rights of desks 0 and 1.
pub(crate) fn pile_of(rt: &impl Print, book: &[u8], number: u16) -> io::Result<()> {
    print!(rt; " known")?;
    amount(rt, tonnage(book, number))?;
    rights(rt, book, 0, number)?;
    rights(rt, book, 1, number)
}

pub(crate) fn rights(rt: &impl Print, book: &[u8], desk: u8, number: u16) -> io::Result<()> {
    print!(rt; " draw")?;
    amount(rt, draw_rights(book, desk, number))?;
    print!(rt; " tip")?;
    amount(rt, tip_rights(book, desk, number))
}

fn main(rt: HostRuntime) -> io::Result<()> {
    worked::run(&rt)?;
    takes::run(&rt)?;
    refused::run(&rt)?;
    broken::run(&rt)?;
    later::run(&rt)?;
    news::run(&rt)?;
    longest::run(&rt)
}
