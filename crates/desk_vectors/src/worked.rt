// The worked book in its 138 bytes: F, the seven acts that make G of it, and cases a to j. Each line ends with the tonnage of pile 7 and the rights
// of its three desks.
use crate::{acted, pile_of, rights, taken};
use desk::{draw, give_draw, give_tip, tip};
use opening::open;
use refusal::Refusal;
use std::io;

const LENGTH: usize = 138;

fn pile_7(rt: &impl Print, book: &[u8]) -> io::Result<()> {
    pile_of(rt, book, 7)?;
    rights(rt, book, 2, 7)?;
    println!(rt;)
}

// As the crate's `act`, but that its line ends with what the copy tells of pile 7.
fn act<F: FnOnce(&mut [u8]) -> Result<(), Refusal>>(
    rt: &impl Print,
    label: &str,
    before: [u8; LENGTH],
    act: F,
) -> io::Result<[u8; LENGTH]>
    requires { F.IsAlwaysCallable act }
{
    let book = acted(rt, label, before, act)?;
    pile_7(rt, &book)?;
    Ok(book)
}

fn opened(rt: &impl Print) -> io::Result<[u8; LENGTH]> {
    let numbers = [7, 10, 110, 0, 0, 0, 40, 30, 30];
    act(rt, "a: F", [0u8; LENGTH], |book| open(3, 1, &numbers, book))
}

fn takes(
    rt: &impl Print,
    label: &str,
    own: [u8; LENGTH],
    copy: [u8; LENGTH],
    desk: u8,
) -> io::Result<()> {
    let book = taken(rt, label, own, &copy, desk)?;
    pile_7(rt, &book)
}

// G: F after its seven acts.
fn seven(rt: &impl Print, f: [u8; LENGTH]) -> io::Result<[u8; LENGTH]> {
    let b = act(rt, "desk 0 tips 30", f, |b| tip(b, 0, 7, 30))?;
    let b = act(rt, "desk 1 tips 1", b, |b| tip(b, 1, 7, 1))?;
    let b = act(
        rt,
        "desk 0 gives draw 10 to desk 1",
        b,
        |b| give_draw(b, 0, 7, 1, 10),
    )?;
    let b = act(
        rt,
        "desk 0 gives draw 10 to desk 2",
        b,
        |b| give_draw(b, 0, 7, 2, 10),
    )?;
    let b = act(rt, "desk 0 draws 5", b, |b| draw(b, 0, 7, 5))?;
    let b = act(rt, "desk 1 draws 4", b, |b| draw(b, 1, 7, 4))?;
    act(rt, "G: desk 2 draws 2", b, |b| draw(b, 2, 7, 2))
}

// The acts of cases b to g, and those that the table refuses with 11 and 12.
fn acts(rt: &impl Print, f: [u8; LENGTH], g: [u8; LENGTH]) -> io::Result<()> {
    act(rt, "b: F, desk 0 draws 1", f, |b| draw(b, 0, 7, 1))?;
    act(rt, "c: F, desk 0 tips 40", f, |b| tip(b, 0, 7, 40))?;
    act(rt, "d: F, desk 0 tips 41", f, |b| tip(b, 0, 7, 41))?;
    act(
        rt,
        "e: G, desk 0 gives draw 5 to desk 1",
        g,
        |b| give_draw(b, 0, 7, 1, 5),
    )?;
    act(
        rt,
        "e: G, desk 0 gives draw 6 to desk 1",
        g,
        |b| give_draw(b, 0, 7, 1, 6),
    )?;
    act(
        rt,
        "f: G, desk 0 gives draw 1 to itself",
        g,
        |b| give_draw(b, 0, 7, 0, 1),
    )?;
    act(
        rt,
        "f: G, desk 0 gives tip 1 to itself",
        g,
        |b| give_tip(b, 0, 7, 0, 1),
    )?;
    act(rt, "g: G, desk 0 tips 0", g, |b| tip(b, 0, 7, 0))?;
    act(rt, "g: G, desk 0 tips 1001", g, |b| tip(b, 0, 7, 1001))?;
    act(rt, "g: G, desk 0 tips 1000", g, |b| tip(b, 0, 7, 1000))?;
    act(
        rt,
        "G, desk 0 gives tip 1 to desk 3",
        g,
        |b| give_tip(b, 0, 7, 3, 1),
    )?;
    act(rt, "G, desk 3 tips 1", g, |b| tip(b, 3, 7, 1))?;
    Ok(())
}

// The takes of cases h to j, and G taken into F by a desk that did not act, as the others did.
fn copies(rt: &impl Print, f: [u8; LENGTH], g: [u8; LENGTH]) -> io::Result<()> {
    takes(rt, "h: desk 0 takes F into G", g, f, 0)?;
    takes(rt, "i: desk 2 takes G into F", f, g, 2)?;
    let one = act(rt, "j: F, desk 0 tips 30", f, |b| tip(b, 0, 7, 30))?;
    let other = act(rt, "j: F, desk 0 tips 10", f, |b| tip(b, 0, 7, 10))?;
    let other = act(
        rt,
        "j: and gives tip 5 to desk 1",
        other,
        |b| give_tip(b, 0, 7, 1, 5),
    )?;
    takes(rt, "j: desk 1 takes the one into the other", other, one, 1)?;
    takes(rt, "desk 1 takes the one into F", f, one, 1)?;
    takes(rt, "desk 3 takes F into G", g, f, 3)
}

pub(crate) fn run(rt: &impl Print) -> io::Result<()> {
    let f = opened(rt)?;
    let g = seven(rt, f)?;
    acts(rt, f, g)?;
    copies(rt, f, g)
}
