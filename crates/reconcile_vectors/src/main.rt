// The bridge's tickets against the desk's. Each line has the answer and then the four counts: alike, differing, only at the bridge, only at the desk.
#![tactic(auto)]

mod counted;
mod longest;
mod print;
mod refused;

use std::io;

fn main(rt: HostRuntime) -> io::Result<()> {
    counted::run(&rt)?;
    longest::run(&rt)?;
    refused::run(&rt)
}
