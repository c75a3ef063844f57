// Computes the values of operators, and prints them.
//
// A line of standard input is an operator and its operands, one space between each two words. An operator has
// its name in scripts, `extract` with the upper and the lower bit after it. An operand is `true`, `false`, or
// `K:N`, the number N in K bits, both in decimal:
//
//     bvadd 4:12 4:10
//     extract 2 1 4:13
//     ite true 8:1 8:2
//
// Its value is printed in the same form; a line of no such form gives `?`. An operand that is missing, or an empty
// word in its place, counts as false. The lines and the expected values are made by tests/operators.py, which asks a
// solver.
#![tactic(auto)]

mod line;

use line::value;
use source::value::Value;
use std::io;
use std::io::{BufRead, BufReader};

fn print(rt: &HostRuntime, answer: Option<Value>) -> io::Result<()> {
    match answer {
        Some(v) => println!(rt; "{v}"),
        None => println!(rt; "?"),
    }
}

fn main(rt: HostRuntime) -> io::Result<()> {
    for line in BufReader::new(rt.alloc(), rt.stdin())?.lines(rt.alloc()) {
        let text = line?;
        print(&rt, value(&text))?;
    }
    Ok(())
}
