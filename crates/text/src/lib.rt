// The text: what a sealed workbook's target is handed out as, and what a refusal is printed as.
//
// The text of a target begins with the line `(set-logic QF_NIA)`, has a line for each row and then one
// for each assertion, and ends with `(check-sat)`. Row 17 is `t17`: an unknown is declared, any other
// row is defined by its operation on earlier rows.
//
// `line` writes any one line into a caller's buffer, `write_text` the whole text behind what a vector
// holds, both of the same lines. Two targets with the same text have the same rows and the same
// asserted rows, so nothing is lost in printing. A buffer of 64 bytes holds every line of a target
// within the limits. What a call does not write, it leaves as it was.
//
// `write_refusal` writes the line for a refusal, as `refused 7 at 17 in order`.
#![tactic(auto)]

mod body;
mod counted;
mod draft;
pub mod line;
mod lines;
pub mod refused;
#[cfg(test)]
mod tests;
pub mod whole;
