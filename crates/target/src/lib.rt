// The target: rows of whole numbers and truth values, and assertions over them.
//
// A row is a fixed operation on earlier rows of its table, named by their indices. Rows and assertions
// are plain records in tables that the caller supplies.
//
// What a table means is defined here too (specs/Meaning.antt): the value of each row under a reading, which
// says what division by 0 gives, and a number for each unknown. `laws::meaning_stands` has what holds of it:
// rows that are appended change no earlier value, a row's value is its operation on its operands' values,
// division is Euclid's, and in a sound table every value is of its row's sort.
#![tactic(auto)]

pub mod assertion;
pub mod laws;
pub mod row;
pub mod table;
