// The forms over what a caller lends: a pile's record that each act updates, and a list of entries that the contents are filled into.
#![tactic(auto)]

mod acts;
mod entries;

pub use acts::{draw, give_draw, give_tip, tip};
pub use entries::{Entry, contents};
