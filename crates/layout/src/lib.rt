// Where each number of a book stands, and how long its parts are: every other crate goes by these.
#![tactic(auto)]

pub mod cells;
pub mod contents;
pub mod head;
pub mod lengths;
pub mod limits;
pub mod side;
