// Lists of 4,096 tickets, the most that a list can have, and of one more.
ghost use Rattle.std.specs.Prelude.{◌≤◌};

use crate::print::{line, load, parts, put};
use std::io;

// Room for 4,097 tickets of 11 bytes; 4,096 of them.
const ROOM: usize = 45_067;

const FULL: usize = 45_056;

// Every third ticket is of so many tonnes, and the others are of 30.
fn tonnes_of(k: usize, third: u32) -> u32 {
    if k % 3 == 0 { third } else { 30 }
}

// 4,097 tickets that rise by a step from 0 on.
fn fill(list: &mut [u8], step: u32, third: u32)
    requires { step ≤ 3 }
{
    for k in 0..=4_096 {
        put(list, k, load(k as u32 * step, tonnes_of(k, third)));
    }
}

// Even numbers and multiples of 3, each against the other: they have those of 6 in common, and of every third of those the tickets differ.
fn both(rt: &impl Print, evens: &[u8], thirds: &[u8]) -> io::Result<()> {
    if let (Some(a), Some(b)) = (evens.get(..FULL), thirds.get(..FULL)) {
        line(rt, "4096 even numbers and 4096 multiples of 3", a, b)?;
        line(rt, "4096 multiples of 3 and 4096 even numbers", b, a)?;
    }
    Ok(())
}

fn alone(rt: &impl Print, list: &[u8]) -> io::Result<()> {
    parts(rt, "4096 and itself", list, FULL, FULL)?;
    parts(rt, "4096 and none", list, FULL, 0)?;
    parts(rt, "none and 4096", list, 0, FULL)?;
    parts(rt, "4096 and the first of them", list, FULL, 11)?;
    parts(rt, "4097 and none", list, ROOM, 0)?;
    parts(rt, "none and 4097", list, 0, ROOM)?;
    parts(rt, "4097 and itself", list, ROOM, ROOM)
}

pub(crate) fn run(rt: &impl Print) -> io::Result<()> {
    let mut evens = [0u8; ROOM];
    fill(&mut evens, 2, 30);
    let mut thirds = [0u8; ROOM];
    fill(&mut thirds, 3, 31);
    both(rt, &evens, &thirds)?;
    alone(rt, &thirds)
}
