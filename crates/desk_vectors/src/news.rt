// A book of three desks and three piles in 406 bytes, and what takes of its copies report: how many pairs of a pile and a desk have another row.
use crate::{act, takes_bytes};
use desk::{draw, tip};
use opening::open;
use std::io;

const LENGTH: usize = 406;

// Each of the piles 1, 2 and 3 has floor 0, top 60 and all six shares 10.
fn opened(rt: &impl Print) -> io::Result<[u8; LENGTH]> {
    let numbers = [
        1, 0, 60, 10, 10, 10, 10, 10, 10, 2, 0, 60, 10, 10, 10, 10, 10, 10, 3, 0, 60, 10, 10, 10,
        10, 10, 10,
    ];
    act(
        rt,
        "open three piles",
        [0u8; LENGTH],
        |book| open(3, 3, &numbers, book),
    )
}

// News of desks 1 and 2 on all three piles.
fn everywhere(rt: &impl Print, fresh: [u8; LENGTH]) -> io::Result<[u8; LENGTH]> {
    let b = act(rt, "copy: desk 1 tips onto 1", fresh, |b| tip(b, 1, 1, 1))?;
    let b = act(rt, "copy: desk 1 tips onto 2", b, |b| tip(b, 1, 2, 1))?;
    let b = act(rt, "copy: desk 1 tips onto 3", b, |b| tip(b, 1, 3, 1))?;
    let b = act(rt, "copy: desk 2 draws from 1", b, |b| draw(b, 2, 1, 1))?;
    let b = act(rt, "copy: desk 2 draws from 2", b, |b| draw(b, 2, 2, 1))?;
    act(rt, "copy: desk 2 draws from 3", b, |b| draw(b, 2, 3, 1))
}

// Then of desk 1 on pile 2 alone, by two acts, and of desk 2 on piles 2 and 3.
fn here_and_there(rt: &impl Print, book: [u8; LENGTH]) -> io::Result<[u8; LENGTH]> {
    let b = act(rt, "copy: desk 1 tips onto 2", book, |b| tip(b, 1, 2, 1))?;
    let b = act(rt, "copy: desk 1 draws from 2", b, |b| draw(b, 1, 2, 1))?;
    let b = act(rt, "copy: desk 2 tips onto 2", b, |b| tip(b, 2, 2, 1))?;
    act(rt, "copy: desk 2 tips onto 3", b, |b| tip(b, 2, 3, 1))
}

pub(crate) fn run(rt: &impl Print) -> io::Result<()> {
    let fresh = opened(rt)?;
    let own = act(rt, "own: desk 0 draws from 1", fresh, |b| draw(b, 0, 1, 1))?;
    let copy = everywhere(rt, fresh)?;
    let own = takes_bytes(
        rt,
        "desk 0 takes news of two desks on three piles",
        own,
        &copy,
        0,
    )?;
    let own = takes_bytes(rt, "desk 0 takes it again", own, &copy, 0)?;
    let copy = here_and_there(rt, copy)?;
    let own = takes_bytes(rt, "desk 0 takes news of three rows", own, &copy, 0)?;
    let own = takes_bytes(rt, "desk 0 takes an old copy", own, &fresh, 0)?;
    takes_bytes(rt, "desk 1 takes the taken book", copy, &own, 1)?;
    Ok(())
}
