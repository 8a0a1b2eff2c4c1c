// Acts on H that are refused: the book's own numbers, 11, 10, 12, 13, 14 and 15, each before all that come after it.
ghost use Rattle.std.specs.Prelude.{◌<◌};

use crate::act;
use crate::broken::{opening_wrong, rights_negative, tally_over};
use crate::takes::{LENGTH, h};
use desk::{draw, give_draw, tip};
use samples::with;
use std::io;

// A give of draw rights by no desk, of no pile, to no desk: in a whole book, and in the first bytes of one alone.
fn gives_nothing(rt: &impl Print, label: &str, before: [u8; LENGTH]) -> io::Result<()> {
    act(rt, label, before, |b| give_draw(b, 2, 6, 2, 0))?;
    Ok(())
}

fn gives_first(rt: &impl Print, label: &str, before: [u8; LENGTH], count: usize) -> io::Result<()> {
    act(rt, label, before, |b| match b.get_mut(..count) {
        Some(first) => give_draw(first, 2, 6, 2, 0),
        None => Ok(()),
    })?;
    Ok(())
}

fn gives(
    rt: &impl Print,
    label: &str,
    before: [u8; LENGTH],
    desk: u8,
    number: u16,
    receiver: u8,
    amount: u32,
) -> io::Result<()> {
    act(
        rt,
        label,
        before,
        |b| give_draw(b, desk, number, receiver, amount),
    )?;
    Ok(())
}

fn tips(rt: &impl Print, label: &str, before: [u8; LENGTH], amount: u32) -> io::Result<()> {
    act(rt, label, before, |b| tip(b, 0, 9, amount))?;
    Ok(())
}

fn draws(rt: &impl Print, label: &str, before: [u8; LENGTH], amount: u32) -> io::Result<()> {
    act(rt, label, before, |b| draw(b, 0, 9, amount))?;
    Ok(())
}

// In each of these books the desk, the pile, the receiver and the amount are wrong too.
fn own(rt: &impl Print, h: [u8; LENGTH]) -> io::Result<()> {
    gives_first(rt, "act in 3 bytes", h, 3)?;
    gives_nothing(rt, "act in a wrong version", with(h, 0, 2))?;
    gives_first(rt, "act in 159 bytes", h, 159)?;
    gives_nothing(rt, "act in a wrong pile number", with(h, 10, 5))?;
    gives_nothing(rt, "act in a wrong opening", opening_wrong(h))?;
    gives_nothing(rt, "act in a tally over its limit", tally_over(h))?;
    gives_nothing(rt, "act in negative rights", rights_negative(h))
}

fn arguments(rt: &impl Print, h: [u8; LENGTH]) -> io::Result<()> {
    gives(rt, "desk 2 gives draw 0 of 6 to desk 2", h, 2, 6, 2, 0)?;
    gives(rt, "desk 1 gives draw 0 of 6 to desk 2", h, 1, 6, 2, 0)?;
    gives(rt, "desk 1 gives draw 0 of 9 to desk 2", h, 1, 9, 2, 0)?;
    gives(rt, "desk 1 gives draw 0 of 9 to itself", h, 1, 9, 1, 0)?;
    gives(rt, "desk 1 gives draw 0 of 9 to desk 0", h, 1, 9, 0, 0)?;
    gives(
        rt,
        "desk 1 gives draw 1001 of 9 to desk 0",
        h,
        1,
        9,
        0,
        1001,
    )?;
    gives(rt, "desk 1 gives draw 3 of 9 to desk 0", h, 1, 9, 0, 3)?;
    gives(rt, "desk 1 gives draw 2 of 9 to desk 0", h, 1, 9, 0, 2)
}

// 1,000,000,000 in four bytes of the book.
fn full(book: [u8; LENGTH], at: usize) -> [u8; LENGTH]
    requires { at < 157 }
{
    let b = with(book, at + 1, 202);
    let b = with(b, at + 2, 154);
    with(b, at + 3, 59)
}

// Desk 0 has tipped and drawn 1,000,000,000 at pile 9, which leaves its rights as they were.
fn limits(rt: &impl Print, h: [u8; LENGTH]) -> io::Result<()> {
    let limit = full(full(h, 112), 116);
    tips(rt, "at the limit desk 0 tips 4", limit, 4)?;
    tips(rt, "at the limit desk 0 tips 3", limit, 3)?;
    draws(rt, "at the limit desk 0 draws 2", limit, 2)?;
    draws(rt, "at the limit desk 0 draws 1", limit, 1)?;
    gives(rt, "at the limit desk 0 gives draw 1", limit, 0, 9, 1, 1)?;
    tips(rt, "desk 0 tips 4 onto 9", h, 4)?;
    tips(rt, "desk 0 tips 3 onto 9", h, 3)
}

pub(crate) fn run(rt: &impl Print) -> io::Result<()> {
    let h = h();
    own(rt, h)?;
    arguments(rt, h)?;
    limits(rt, h)
}
