// The C names of the pit book: each entry point of `pitbook` with its clauses, exported under the name that the header declares.
#![tactic(auto)]

pub mod acts;
pub mod books;
pub mod compare;
pub mod contents;
pub mod lists;
pub mod queries;
pub mod records;
pub mod tickets;
