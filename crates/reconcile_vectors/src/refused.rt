// What is refused, and what of two faults is told.
use crate::print::{pair, parts, three};
use samples::with;
use std::io;

// 2 4 6, and the same with one byte replaced.
fn right() -> [u8; 33] {
    three(2, 4, 6)
}

fn wrong(at: usize, byte: u8) -> [u8; 33] {
    with(right(), at, byte)
}

// The first digit of the first ticket is wrong too: a length comes first.
fn lengths(rt: &impl Print) -> io::Result<()> {
    let list = wrong(0, 0xff);
    parts(rt, "1 byte and a wrong ticket", &list, 1, 33)?;
    parts(rt, "a wrong ticket and 10 bytes", &list, 33, 10)?;
    parts(rt, "12 bytes and none", &list, 12, 0)?;
    parts(rt, "none and 32 bytes", &list, 0, 32)
}

// Each refusal that a ticket can meet, in the first or in the last ticket of either list.
fn tickets(rt: &impl Print) -> io::Result<()> {
    pair(rt, "digit in the bridge's first", wrong(3, 0x0a), right())?;
    pair(rt, "digit in the bridge's last", wrong(22, 0xa0), right())?;
    pair(rt, "digit in the desk's first", right(), wrong(8, 0x3a))?;
    pair(rt, "digit in the desk's last", right(), wrong(28, 0xa7))?;
    pair(rt, "pile 0 in the bridge's last", wrong(28, 0), right())?;
    pair(
        rt,
        "pile 70007 in the desk's first",
        right(),
        wrong(4, 0x07),
    )?;
    pair(rt, "0 tonnes in the bridge's first", wrong(8, 0), right())?;
    pair(
        rt,
        "1030 tonnes in the desk's last",
        right(),
        wrong(29, 0x10),
    )?;
    pair(rt, "kind 3 in the bridge's last", wrong(31, 3), right())?;
    pair(rt, "desk 8 in the desk's first", right(), wrong(10, 8))
}

fn numbers(rt: &impl Print) -> io::Result<()> {
    pair(rt, "bridge 4 4 6", three(4, 4, 6), right())?;
    pair(rt, "bridge 2 6 4", three(2, 6, 4), right())?;
    pair(rt, "desk 2 4 4", right(), three(2, 4, 4))?;
    pair(rt, "desk 4 2 6", right(), three(4, 2, 6))
}

// Two faults, in either list: at 28 the last ticket's pile, at 30 its tonnes, at 32 its desk.
fn order(rt: &impl Print) -> io::Result<()> {
    let falling = three(6, 4, 2);
    pair(rt, "both fall", falling, falling)?;
    pair(
        rt,
        "bridge falls, desk 8 in the desk's last",
        falling,
        wrong(32, 8),
    )?;
    pair(
        rt,
        "desk falls, 0 tonnes in the bridge's last",
        wrong(30, 0),
        falling,
    )?;
    pair(
        rt,
        "0 tonnes in the bridge's last, digit in the desk's first",
        wrong(30, 0),
        wrong(0, 0xff),
    )?;
    let two = with(wrong(28, 0), 10, 8);
    pair(
        rt,
        "desk 8 in the bridge's first, pile 0 in its last",
        two,
        right(),
    )?;
    pair(
        rt,
        "desk 8 in the desk's first, pile 0 in its last",
        right(),
        two,
    )?;
    pair(
        rt,
        "desk falls, pile 0 in its last",
        right(),
        with(falling, 28, 0),
    )
}

pub(crate) fn run(rt: &impl Print) -> io::Result<()> {
    lengths(rt)?;
    tickets(rt)?;
    numbers(rt)?;
    order(rt)
}
