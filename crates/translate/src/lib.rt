// From a script to its text: the calls that the program makes.
//
// `translate` reads a script, feeds its orders to a workbook and seals it. `answer` does the same on tables
// of its own and writes what `blast` prints: the text of the script, or the line of the refusal. What comes
// out is stated as one value of the script's bytes.
#![tactic(auto)]

pub mod answer;
pub mod translate;
