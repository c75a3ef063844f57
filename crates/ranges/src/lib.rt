// Ranges of a whole table of rows, by any range keeper.
//
// A row is any number of a width, a constant, or an operator applied to earlier rows. The records of the
// rows are made in turn with nothing but the interface of keepers, so the code and its law are those of
// every keeper: the record of a row describes the row's value.
#![tactic(auto)]

pub mod entry;
pub mod fill;
pub mod limit;
#[cfg(test)]
mod tests;
