// The worked book's pile as a record, then (`file.rt`) its file, and (`sure.rt`) what its desks can be sure of. The record: F, the acts that make G of
// it, and what the table refuses on the way and from G. Each line has the act, its answer, and then the tonnage and the draw and tip rights of desks 0,
// 1 and 2 of the record that came back.
#![tactic(auto)]

mod file;
mod sure;
mod tickets;

ghost use Rattle.std.specs.Prelude.{◌<◌};

use pile::{Outcome, Pile, SHARES, TALLIES};
use samples::{line, made};
use std::io;

// A fresh record, or where it is refused that of all zeros.
pub(crate) fn fresh(n: u8, floor: u32, top: u32, shares: [u32; SHARES]) -> Outcome {
    made(Pile::fresh(n, floor, top, shares))
}

// G: F after its seven acts, with cases b and d refused first.
fn worked(rt: &impl Print) -> io::Result<Pile> {
    let shares = [0, 0, 0, 0, 0, 0, 0, 0, 40, 30, 30, 0, 0, 0, 0, 0];
    let f = line(rt, "F", fresh(3, 10, 110, shares))?;
    let f = line(rt, "desk 0 draws 1", f.draw(0, 1))?;
    let f = line(rt, "desk 0 tips 41", f.tip(0, 41))?;
    let p = line(rt, "desk 0 tips 30", f.tip(0, 30))?;
    let p = line(rt, "desk 1 tips 1", p.tip(1, 1))?;
    let p = line(rt, "desk 0 gives draw 10 to desk 1", p.give_draw(0, 1, 10))?;
    let p = line(rt, "desk 0 gives draw 10 to desk 2", p.give_draw(0, 2, 10))?;
    let p = line(rt, "desk 0 draws 5", p.draw(0, 5))?;
    let p = line(rt, "desk 1 draws 4", p.draw(1, 4))?;
    line(rt, "desk 2 draws 2", p.draw(2, 2))
}

// What the table refuses from G.
fn refused(rt: &impl Print, g: Pile) -> io::Result<()> {
    let g = line(rt, "desk 0 gives draw 6 to desk 1", g.give_draw(0, 1, 6))?;
    let g = line(rt, "desk 0 gives draw 1 to itself", g.give_draw(0, 0, 1))?;
    let g = line(rt, "desk 0 gives tip 1 to itself", g.give_tip(0, 0, 1))?;
    let g = line(rt, "desk 0 gives tip 1 to desk 3", g.give_tip(0, 3, 1))?;
    let g = line(rt, "desk 3 tips 1", g.tip(3, 1))?;
    let g = line(rt, "desk 0 tips 0", g.tip(0, 0))?;
    let g = line(rt, "desk 0 tips 1001", g.tip(0, 1001))?;
    let g = line(rt, "desk 0 tips 1000", g.tip(0, 1000))?;
    line(rt, "desk 0 gives draw 5 to desk 1", g.give_draw(0, 1, 5))?;
    Ok(())
}

// Fresh records at their limits and past them, and a record of the largest numbers.
fn unlawful(rt: &impl Print) -> io::Result<()> {
    let zero = [0u32; 16];
    line(rt, "no desks", fresh(0, 0, 0, zero))?;
    line(rt, "nine desks", fresh(9, 0, 0, zero))?;
    line(rt, "floor above top", fresh(3, 2, 1, zero))?;
    line(
        rt,
        "top above its limit",
        fresh(3, 10000001, 10000001, zero),
    )?;
    line(
        rt,
        "floor and top at the limit",
        fresh(3, 10000000, 10000000, zero),
    )?;
    let most = Pile {
        n: 8,
        floor: 4294967295,
        top: 4294967295,
        shares: [4294967295; 16],
        tallies: [4294967295; TALLIES],
    };
    line(rt, "the largest numbers", most.tip(0, 1))?;
    Ok(())
}

// A record of two desks, with one number of it set: desk 0 has 10 draw rights and desk 1 has 10 tip rights.
pub(crate) fn with_tally(at: usize, tally: u32) -> Pile
    requires { at < 144 }
{
    let mut tallies = [0u32; TALLIES];
    tallies[at] = tally;
    Pile {
        n: 2,
        floor: 0,
        top: 20,
        shares: [10, 0, 0, 0, 0, 0, 0, 0, 0, 10, 0, 0, 0, 0, 0, 0],
        tallies,
    }
}

// A record with one tally set, and an act on it.
fn tipped(rt: &impl Print, label: &str, at: usize, tally: u32) -> io::Result<()>
    requires { at < 144 }
{
    let pile = with_tally(at, tally);
    line(rt, label, pile.tip(0, 1))?;
    Ok(())
}

// What makes a record's tallies unlawful, and an act that finds its tally full.
fn tallied(rt: &impl Print) -> io::Result<()> {
    let none = with_tally(0, 0);
    line(rt, "no tallies", none.give_draw(0, 1, 10))?;
    tipped(rt, "tipped above its limit", 0, 1000000001)?;
    tipped(rt, "a give to oneself", 2, 1)?;
    tipped(rt, "a give to a desk past n", 4, 1)?;
    tipped(rt, "a desk past n tipped", 36, 1)?;
    tipped(rt, "drawn beyond rights", 19, 1)?;
    let mut full = with_tally(0, 999999999);
    full.tallies[1] = 999999999;
    let full = line(rt, "desk 0 draws up to the limit", full.draw(0, 1))?;
    line(rt, "desk 0 draws past the limit", full.draw(0, 1))?;
    Ok(())
}

fn main(rt: HostRuntime) -> io::Result<()> {
    let g = worked(&rt)?;
    refused(&rt, g)?;
    unlawful(&rt)?;
    tallied(&rt)?;
    file::run(&rt)?;
    sure::run(&rt, g)?;
    tickets::run(&rt)
}
