// The pit book for callers in other languages: every entry point over numbers and slices alone, under its plain name. Each answers with a refusal's number,
// or 0 for done; a refused call changes no lent number.
#![tactic(auto)]

pub mod acts;
pub mod books;
pub mod compare;
pub mod contents;
pub mod lists;
pub mod queries;
pub mod records;
pub mod tickets;
mod told;
