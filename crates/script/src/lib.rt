// Scripts: register conditions as text, read into orders.
//
// The lexer gives the tokens of a script one at a time. The reader takes a whole script: it grants one of
// the grammar, and then leaves its orders and its names in two tables; any other it refuses with a cause
// and a place, and both tables are blank. Every function here answers for every input, and each answer is
// the one that a definition on the bytes gives.
#![tactic(auto)]

mod bytes;
pub mod command;
mod declaration;
pub mod lexer;
pub mod names;
pub mod numeral;
pub mod read;
mod steps;
mod table;
#[cfg(test)]
mod tests;
pub mod token;
pub mod words;
