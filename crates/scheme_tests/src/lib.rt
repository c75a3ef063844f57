// Tests of the and-schemes: every row that they add against one worked out from its place alone, and their answers
// under many numbers against the machine's own `&`.
#![tactic(auto)]

mod evaluate;
pub mod expected;
pub mod listed;
#[cfg(test)]
mod tests;
