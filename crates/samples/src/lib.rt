// What the test programs share: how answers, amounts and records are printed, bytes with a fault, and the list that opens the longest book.
#![tactic(auto)]

mod bytes;
mod longest;
mod print;

pub use bytes::{first, with};
pub use longest::longest_list;
pub use print::{amount, line, made};
