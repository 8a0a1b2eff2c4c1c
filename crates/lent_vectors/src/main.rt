// What a caller lends: records that the acts update (`acts.rt`, `worked.rt`), and lists of entries that a book's contents are filled into (`contents.rt`,
// `lists.rt`). Each line has the call, its answer, and what the call left of what was lent.
#![tactic(auto)]

mod acts;
mod contents;
mod lists;
mod worked;

use std::io;

fn main(rt: HostRuntime) -> io::Result<()> {
    worked::run(&rt)?;
    lists::run(&rt)
}
