// Lists with nothing wrong in them: empty, of one ticket, and of three.
use crate::print::{line, load, pair, parts, put, three};
use std::io;
use ticket::Ticket;

// Ticket 5 at the bridge, against a list of one.
fn five(rt: &impl Print, label: &str, ticket: Ticket) -> io::Result<()> {
    let mut bridge = [0u8; 11];
    put(&mut bridge, 0, load(5, 30));
    let mut desk = [0u8; 11];
    put(&mut desk, 0, ticket);
    line(rt, label, &bridge, &desk)
}

// Ticket 5 again, with another pile, kind and desk.
fn five_with(rt: &impl Print, label: &str, pile: u32, kind: u8, desk: u8) -> io::Result<()> {
    five(
        rt,
        label,
        Ticket {
            number: 5,
            pile,
            tonnes: 30,
            kind,
            desk,
        },
    )
}

fn of_none_and_one(rt: &impl Print) -> io::Result<()> {
    let list = three(2, 4, 6);
    parts(rt, "two empty lists", &list, 0, 0)?;
    parts(rt, "2 and none", &list, 11, 0)?;
    parts(rt, "none and 2", &list, 0, 11)
}

fn of_three(rt: &impl Print) -> io::Result<()> {
    let list = three(2, 4, 6);
    parts(rt, "2 4 6 and 2 4 6", &list, 33, 33)?;
    parts(rt, "2 4 6 and 2 4", &list, 33, 22)?;
    parts(rt, "2 4 and 2 4 6", &list, 22, 33)
}

// 2 4 7, of which desk 3 has tipped 4.
fn other() -> [u8; 33] {
    let mut list = three(2, 4, 7);
    list[11 + 10] = 3;
    list
}

pub(crate) fn run(rt: &impl Print) -> io::Result<()> {
    of_none_and_one(rt)?;
    five(rt, "5 and 5", load(5, 30))?;
    five(rt, "5 and 4", load(4, 30))?;
    five(rt, "5 and 6", load(6, 30))?;
    five(rt, "5 and 5 of 31 tonnes", load(5, 31))?;
    five_with(rt, "5 and 5 on pile 8", 8, 1, 0)?;
    five_with(rt, "5 and 5 drawn", 7, 2, 0)?;
    five_with(rt, "5 and 5 by desk 1", 7, 1, 1)?;
    of_three(rt)?;
    pair(rt, "2 4 6 and 1 3 5", three(2, 4, 6), three(1, 3, 5))?;
    pair(rt, "2 4 6 and 3 5 7", three(2, 4, 6), three(3, 5, 7))?;
    pair(rt, "2 4 6 and 4 6 8", three(2, 4, 6), three(4, 6, 8))?;
    pair(rt, "2 4 6 and 7 8 9", three(2, 4, 6), three(7, 8, 9))?;
    pair(rt, "2 4 6 and 1 4 9", three(2, 4, 6), three(1, 4, 9))?;
    pair(rt, "2 4 6 and 2 4 by desk 3, 7", three(2, 4, 6), other())?;
    pair(rt, "2 4 by desk 3, 7 and 2 4 6", other(), three(2, 4, 6))?;
    pair(
        rt,
        "0 1 99999999 and 0 5 99999998",
        three(0, 1, 99_999_999),
        three(0, 5, 99_999_998),
    )?;
    pair(
        rt,
        "0 1 99999998 and 0 5 99999999",
        three(0, 1, 99_999_998),
        three(0, 5, 99_999_999),
    )
}
