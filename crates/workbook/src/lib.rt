// The workbook: takes orders and keeps their target.
//
// A workbook stands on tables that the caller supplies at each call: source rows with a range keeper's
// records, target rows and assertions. The workbook itself holds only how much of each is in use. A call
// grants and adds to the tables, or refuses and leaves everything as it was; both are stated of every
// input, to the last element of every table.
#![tactic(auto)]

pub mod book;
pub mod calls;
pub mod counts;
mod enter;
pub mod tables;
#[cfg(test)]
mod tests;
