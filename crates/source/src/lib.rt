// The source: register conditions as a list of orders.
//
// An order adds one row to the source or requires one. This layer has the widths and sorts of the rows,
// the operators with the SMT-LIB value of each, and the orders as they stand in a plain list, each with its
// place in the script it was read from.
#![tactic(auto)]

pub mod apply;
mod arithmetic;
mod bit_vector;
mod bitwise;
mod comparisons;
mod division;
pub mod laws;
pub mod operator;
pub mod order;
mod pair;
pub mod shape;
mod shifts;
mod sorts;
pub mod text;
pub mod value;
pub mod width;
