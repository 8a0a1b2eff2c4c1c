// H, a book of two desks and two piles in 160 bytes, and takes into it: each refusal of a take, and accepted ones.
use crate::broken::{give_to_itself, opening_wrong, rights_negative, tally_over};
use crate::{act, acted, alike, pile_of, reported, taken, takes_bytes};
use desk::{draw, give_tip, tip};
use opening::open;
use samples::{first, with};
use std::io;
use take::take;

pub(crate) const LENGTH: usize = 160;

// Pile 5 has floor 10, top 50, draw shares 4, 6 and tip shares 20, 10; pile 9 has floor 0, top 8, draw shares 1, 2 and tip shares 3, 2.
pub(crate) fn h() -> [u8; LENGTH] {
    let numbers = [5, 10, 50, 4, 6, 20, 10, 9, 0, 8, 1, 2, 3, 2];
    let mut book = [0u8; LENGTH];
    open(2, 2, &numbers, &mut book).ok();
    book
}

// A take of a copy as long as H.
fn takes(
    rt: &impl Print,
    label: &str,
    own: [u8; LENGTH],
    copy: [u8; LENGTH],
    desk: u8,
) -> io::Result<()> {
    takes_bytes(rt, label, own, &copy, desk)?;
    Ok(())
}

// The own book's refusals, 1 and 3 excepted, before the copy's and 11.
fn own_wrong(rt: &impl Print, h: [u8; LENGTH]) -> io::Result<()> {
    let bad = with(h, 0, 2);
    takes(rt, "take into a wrong version", with(h, 0, 2), bad, 2)?;
    takes(rt, "take into a wrong pile number", with(h, 10, 5), bad, 2)?;
    takes(rt, "take into a wrong opening", opening_wrong(h), bad, 2)?;
    takes(
        rt,
        "take into a tally over its limit",
        tally_over(h),
        bad,
        2,
    )?;
    takes(rt, "take into a give to itself", give_to_itself(h), bad, 2)?;
    takes(rt, "take into negative rights", rights_negative(h), bad, 2)
}

// A take into the first bytes of a book alone.
fn into_first(rt: &impl Print, label: &str, before: [u8; LENGTH], count: usize) -> io::Result<()> {
    let mut book = before;
    let told = match book.get_mut(..count) {
        Some(own) => take(own, &before, 2),
        None => Ok(0),
    };
    reported(rt, label, told, &before, &book)?;
    println!(rt;)
}

// The copy's refusals, 21 to 27, before 11; then 11.
fn copy_wrong(rt: &impl Print, h: [u8; LENGTH]) -> io::Result<()> {
    takes_bytes(rt, "take 3 bytes", h, first(&h, 3), 2)?;
    let copy = with(h, 0, 2);
    takes(rt, "take a wrong version", h, copy, 2)?;
    takes_bytes(rt, "take 159 bytes", h, first(&h, 159), 2)?;
    let copy = with(h, 10, 5);
    takes(rt, "take a wrong pile number", h, copy, 2)?;
    let copy = opening_wrong(h);
    takes(rt, "take a wrong opening", h, copy, 2)?;
    let copy = tally_over(h);
    takes(rt, "take a tally over its limit", h, copy, 2)?;
    let copy = give_to_itself(h);
    takes(rt, "take a give to itself", h, copy, 2)?;
    let copy = rights_negative(h);
    takes(rt, "take negative rights", h, copy, 2)?;
    takes(rt, "take at desk 2 of 2", h, h, 2)?;
    takes(rt, "take at desk 255 of 2", h, h, 255)
}

// A copy of H opened with another list.
fn opened_otherwise(
    rt: &impl Print,
    label: &str,
    h: [u8; LENGTH],
    numbers: [u32; 14],
) -> io::Result<()> {
    let mut copy = [0u8; LENGTH];
    open(2, 2, &numbers, &mut copy).ok();
    takes(rt, label, h, copy, 0)
}

// Copies with another n, with one of the piles, and with another pile number or opening.
fn others(rt: &impl Print, h: [u8; LENGTH]) -> io::Result<()> {
    let mut worked = [0u8; 138];
    let numbers = [7, 10, 110, 0, 0, 0, 40, 30, 30];
    open(3, 1, &numbers, &mut worked).ok();
    takes_bytes(rt, "take another n", h, &worked, 0)?;
    let mut one = [0u8; 82];
    let numbers = [5, 10, 50, 4, 6, 20, 10];
    open(2, 1, &numbers, &mut one).ok();
    takes_bytes(rt, "take one pile of the two", h, &one, 0)?;
    opened_otherwise(
        rt,
        "take another pile number",
        h,
        [5, 10, 50, 4, 6, 20, 10, 10, 0, 8, 1, 2, 3, 2],
    )?;
    opened_otherwise(
        rt,
        "take other draw shares",
        h,
        [5, 10, 50, 4, 6, 20, 10, 9, 0, 8, 2, 1, 3, 2],
    )?;
    opened_otherwise(
        rt,
        "take other tip shares",
        h,
        [5, 10, 50, 4, 6, 20, 10, 9, 0, 8, 1, 2, 2, 3],
    )?;
    opened_otherwise(
        rt,
        "take another floor and top",
        h,
        [5, 10, 50, 4, 6, 20, 10, 9, 1, 9, 1, 2, 3, 2],
    )?;
    opened_otherwise(
        rt,
        "take other shares of the first pile",
        h,
        [5, 10, 50, 6, 4, 20, 10, 9, 0, 8, 1, 2, 3, 2],
    )?;
    opened_otherwise(
        rt,
        "take an equal book",
        h,
        [5, 10, 50, 4, 6, 20, 10, 9, 0, 8, 1, 2, 3, 2],
    )
}

// By pile: in each call one row is split and another later at the taker's desk, and that of the first pile counts.
fn by_pile(rt: &impl Print, h: [u8; LENGTH]) -> io::Result<()> {
    let own = act(rt, "own: desk 1 tips 1 onto 5", h, |b| tip(b, 1, 5, 1))?;
    let copy = act(rt, "copy: desk 0 tips 1 onto 9", h, |b| tip(b, 0, 9, 1))?;
    let copy = act(
        rt,
        "copy: desk 1 draws 1 from 5",
        copy,
        |b| draw(b, 1, 5, 1),
    )?;
    takes(rt, "desk 0 takes: split in 5, later in 9", own, copy, 0)?;
    let own = act(rt, "own: desk 0 tips 1 onto 9", h, |b| tip(b, 0, 9, 1))?;
    let copy = act(rt, "copy: desk 1 tips 1 onto 5", h, |b| tip(b, 1, 5, 1))?;
    let copy = act(
        rt,
        "copy: desk 0 draws 1 from 9",
        copy,
        |b| draw(b, 0, 9, 1),
    )?;
    takes(rt, "desk 1 takes: later in 5, split in 9", own, copy, 1)
}

// By desk: the same within one pile, where the first desk's row counts; and a row of the taker's own desk that is split.
fn by_desk(rt: &impl Print, h: [u8; LENGTH]) -> io::Result<()> {
    let own = act(rt, "own: desk 0 tips 1 onto 5", h, |b| tip(b, 0, 5, 1))?;
    let own = act(rt, "own: desk 1 tips 1 onto 5", own, |b| tip(b, 1, 5, 1))?;
    let copy = act(rt, "copy: desk 0 draws 1 from 5", h, |b| draw(b, 0, 5, 1))?;
    let copy = act(rt, "copy: desk 1 tips 2 onto 5", copy, |b| tip(b, 1, 5, 2))?;
    takes(rt, "desk 1 takes: desk 0 split, desk 1 later", own, copy, 1)?;
    let copy = act(rt, "copy: desk 0 tips 2 onto 5", h, |b| tip(b, 0, 5, 2))?;
    let copy = act(
        rt,
        "copy: desk 1 draws 1 from 5",
        copy,
        |b| draw(b, 1, 5, 1),
    )?;
    takes(rt, "desk 0 takes: desk 0 later, desk 1 split", own, copy, 0)
}

// Pile 5's row of desk 0 is later in the copy, and is not written, since in pile 9 the taker's own row is split.
fn last_pile(rt: &impl Print, h: [u8; LENGTH]) -> io::Result<()> {
    let own = act(rt, "own: desk 1 tips 1 onto 9", h, |b| tip(b, 1, 9, 1))?;
    let copy = act(rt, "copy: desk 1 draws 1 from 9", h, |b| draw(b, 1, 9, 1))?;
    takes(rt, "desk 1 takes: its own row split in 9", own, copy, 1)?;
    let copy = act(rt, "copy: desk 0 tips 1 onto 5", copy, |b| tip(b, 0, 5, 1))?;
    takes(
        rt,
        "desk 1 takes: the same, and a later row in 5",
        own,
        copy,
        1,
    )
}

fn both_piles(rt: &impl Print, book: &[u8]) -> io::Result<()> {
    pile_of(rt, book, 5)?;
    pile_of(rt, book, 9)?;
    println!(rt;)
}

fn merges(
    rt: &impl Print,
    label: &str,
    own: [u8; LENGTH],
    copy: [u8; LENGTH],
    desk: u8,
) -> io::Result<[u8; LENGTH]> {
    let book = taken(rt, label, own, &copy, desk)?;
    both_piles(rt, &book)?;
    Ok(book)
}

// Accepted takes: a row of each pile, then again, when nothing is left to add, and back, whereupon both books are alike; a row of the second pile alone.
fn accepted(rt: &impl Print, h: [u8; LENGTH]) -> io::Result<()> {
    let own = act(rt, "own: desk 1 draws 1 from 9", h, |b| draw(b, 1, 9, 1))?;
    let copy = act(rt, "copy: desk 0 tips 2 onto 5", h, |b| tip(b, 0, 5, 2))?;
    let label = "copy: desk 0 gives tip 2 of 9 to desk 1";
    let copy = acted(rt, label, copy, |b| give_tip(b, 0, 9, 1, 2))?;
    both_piles(rt, &copy)?;
    let merged = merges(rt, "desk 1 takes: later rows in 5 and 9", own, copy, 1)?;
    let again = merges(rt, "desk 1 takes them again", merged, copy, 1)?;
    let back = merges(rt, "desk 0 takes the taken book", copy, again, 0)?;
    alike(rt, "the two books", &again, &back)?;
    let second = act(rt, "copy: desk 0 tips 3 onto 9", h, |b| tip(b, 0, 9, 3))?;
    merges(rt, "desk 1 takes: a later row in 9 alone", h, second, 1)?;
    Ok(())
}

pub(crate) fn run(rt: &impl Print) -> io::Result<()> {
    let h = h();
    own_wrong(rt, h)?;
    into_first(rt, "take into 3 bytes", h, 3)?;
    into_first(rt, "take into 159 bytes", h, 159)?;
    copy_wrong(rt, h)?;
    others(rt, h)?;
    by_pile(rt, h)?;
    by_desk(rt, h)?;
    last_pile(rt, h)?;
    accepted(rt, h)
}
