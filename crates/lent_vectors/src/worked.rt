// The worked book's pile as a record that is lent: F, the acts that make G of it, and what the table refuses from F and from G.
// Each line has the act, its answer, and then the tonnage and the draw and tip rights of desks 0, 1 and 2 of the record that came back.
use crate::acts::{draw_given, drawn, tip_given, tipped, worked};
use pile::{Outcome, Pile};
use samples::{line, made};
use std::io;

fn opened(rt: &impl Print) -> io::Result<Pile> {
    let shares = [0, 0, 0, 0, 0, 0, 0, 0, 40, 30, 30, 0, 0, 0, 0, 0];
    line(rt, "F", made(Pile::fresh(3, 10, 110, shares)))
}

// The seven acts one by one, with cases b and d refused first.
fn steps(rt: &impl Print, f: Pile) -> io::Result<()> {
    let f = line(rt, "desk 0 draws 1", drawn(f, 0, 1))?;
    let f = line(rt, "desk 0 tips 41", tipped(f, 0, 41))?;
    let p = line(rt, "desk 0 tips 30", tipped(f, 0, 30))?;
    let p = line(rt, "desk 1 tips 1", tipped(p, 1, 1))?;
    let p = line(
        rt,
        "desk 0 gives draw 10 to desk 1",
        draw_given(p, 0, 1, 10),
    )?;
    let p = line(
        rt,
        "desk 0 gives draw 10 to desk 2",
        draw_given(p, 0, 2, 10),
    )?;
    let p = line(rt, "desk 0 draws 5", drawn(p, 0, 5))?;
    let p = line(rt, "desk 1 draws 4", drawn(p, 1, 4))?;
    line(rt, "desk 2 draws 2", drawn(p, 2, 2))?;
    Ok(())
}

// The seven acts on one record; the answer of its line is the record's own check.
fn at_once(rt: &impl Print, f: Pile) -> io::Result<Pile> {
    let g = worked(f);
    let answer = g.check();
    line(rt, "G", Outcome { answer, pile: g })
}

// What the table refuses from G; then case e, and a give of tip rights that is done.
fn refused(rt: &impl Print, g: Pile) -> io::Result<()> {
    let g = line(rt, "desk 0 gives draw 6 to desk 1", draw_given(g, 0, 1, 6))?;
    let g = line(rt, "desk 0 gives draw 1 to itself", draw_given(g, 0, 0, 1))?;
    let g = line(rt, "desk 0 gives tip 1 to itself", tip_given(g, 0, 0, 1))?;
    let g = line(rt, "desk 0 gives tip 1 to desk 3", tip_given(g, 0, 3, 1))?;
    let g = line(rt, "desk 3 tips 1", tipped(g, 3, 1))?;
    let g = line(rt, "desk 3 draws 1", drawn(g, 3, 1))?;
    let g = line(rt, "desk 0 tips 0", tipped(g, 0, 0))?;
    let g = line(rt, "desk 0 tips 1001", tipped(g, 0, 1001))?;
    let g = line(rt, "desk 0 tips 1000", tipped(g, 0, 1000))?;
    let g = line(rt, "desk 0 gives draw 5 to desk 1", draw_given(g, 0, 1, 5))?;
    line(rt, "desk 1 gives tip 33 to desk 0", tip_given(g, 1, 0, 33))?;
    Ok(())
}

// A record that is unlawful itself.
fn unlawful(rt: &impl Print) -> io::Result<()> {
    line(
        rt,
        "desk 0 tips 1 onto the record of zeros",
        tipped(Pile::zero(), 0, 1),
    )?;
    Ok(())
}

pub(crate) fn run(rt: &impl Print) -> io::Result<()> {
    let f = opened(rt)?;
    steps(rt, f)?;
    let g = at_once(rt, f)?;
    refused(rt, g)?;
    unlawful(rt)
}
