// Range keepers: what is known of the numbers that a source row can have.
//
// A range keeper makes a record for each source row, from the row's operator and the records of its
// operands. A record bears the width k it was made at and stands for a set of numbers below 2^k; the row's
// number is always among them. The keeper answers a least and a most number for every record, so that a
// number that is known to be small spares the target a remainder. Nothing is refused: of a row that a keeper
// cannot say more of, its record stands for all numbers of the width. Equal records get equal answers.
//
// The code above this layer is written once, for every keeper. There are two: plain knows only widths, and
// interval knows a least and a most number.
#![tactic(auto)]

pub mod interval;
pub mod keeper;
pub mod largest;
pub mod plain;
pub mod record;
#[cfg(test)]
mod tests;
