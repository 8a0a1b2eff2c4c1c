// Lists the book on standard input: a line with its desks and piles, then for each pile, in file order, a line with its number, floor, top and
// tonnage known and a line for each desk with its rights and the least and the most tonnes that it can be sure of. A refused book is one line with the
// refusal's number.
#![tactic(auto)]

mod lines;

ghost use Rattle.std.specs.Prelude.{◌≤◌, IfOk, length};
ghost use Rattle.rules.specs.Layout.{desk_limit};

use book::check;
use bounds::{Bounded, bounds_in};
use layout::contents::{pile_number, position};
use layout::head::head_of;
use layout::lengths::LONGEST_BOOK;
use lines::{book_line, desk_line, pile_line, refused_line};
use std::io;
use std::io::Read;

// One byte more than the longest book has: a longer input is refused by its length.
const BUFFER: usize = LONGEST_BOOK + 1;

// The lines of n desks.
fn list_desks(rt: &impl Print, n: u8, found: Bounded) -> io::Result<()>
    requires { n ≤ desk_limit }
{
    let held = found.held;
    for desk in 0..n as usize {
        desk_line(
            rt,
            desk,
            held.draw[desk],
            held.tip[desk],
            found.least[desk],
            found.most[desk],
        )?;
    }
    Ok(())
}

// The lines of pile k, of a book of n desks: its account is made once, where its body stands, for the tonnage, all rights and all bounds. Of a book that
// passed its check no body is refused.
fn list_pile(rt: &impl Print, book: &[u8], n: u8, k: u8) -> io::Result<()>
    requires { n ≤ desk_limit }
{
    match bounds_in(book, position(book, k) as usize, n) {
        Ok(found) => {
            let held = found.held;
            pile_line(rt, pile_number(book, k), held.floor, held.top, held.tonnage)?;
            list_desks(rt, n, found)
        }
        Err(refusal) => refused_line(rt, refusal),
    }
}

// The whole listing. The book is checked once, here.
fn list(rt: &impl Print, book: &[u8]) -> io::Result<()> {
    if let Err(refusal) = check(book) {
        return refused_line(rt, refusal);
    }
    let head = head_of(book);
    book_line(rt, head.desks, head.piles)?;
    for k in 0..head.piles {
        list_pile(rt, book, head.desks, k)?;
    }
    Ok(())
}

// Reads until the buffer is full or the input ends, and returns how many bytes it put at the start of the buffer. A read may bring less than there is room
// for, so the loop counts bytes and no turns; `read_to_end` would need a heap.
fn read_full(input: &mut impl Read, buffer: &mut [u8]) -> io::Result<usize>
    ensures { IfOk result (λ n. n ≤ length buffer.new) }
{
    let mut done = 0;
    while done < buffer.len() {
        let count = input.read(&mut buffer[done..])?;
        if count == 0 {
            return Ok(done);
        }
        done += count;
    }
    Ok(done)
}

fn main(rt: HostRuntime) -> io::Result<()> {
    let mut buffer = [0u8; BUFFER];
    let length = read_full(&mut rt.reader(), &mut buffer)?;
    list(&rt, &buffer[..length])
}
