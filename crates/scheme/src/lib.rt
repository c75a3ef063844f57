// And-schemes: ways to state by rows of a target that one number is the bitwise and of two others.
//
// A target has no bitwise operation. An and-scheme adds rows to a table after which one Boolean row, its answer,
// is true exactly when the row c is the bitwise and of the rows a and b, wherever those lie from 0 to below 2^k.
// `scheme::Scheme` is what every and-scheme owes for every input, and all that its callers know of it. `sum::Sum`
// adds up the bits of the and and compares once; `bitwise::Bitwise` compares bit by bit; `either::Either` is one
// of two schemes, so that a list of calls can mix them. The other modules have what schemes are made of.
#![tactic(auto)]

mod base;
pub mod bitwise;
pub mod cause;
pub mod either;
pub mod lemma;
mod put;
pub mod scheme;
pub mod sum;
mod turns;
mod written;
