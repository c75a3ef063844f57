// Runs many scripts through the call that `blast` makes, and prints what it answers for each.
//
// Standard input has one script a line: pieces in hexadecimal between spaces, `HEX*N` being a piece N times.
// The scripts and the expected output are made by tests/reference.py, an independent reading of the rules.
#![tactic(auto)]

mod decode;

use decode::decode;
use std::io;
use std::io::{Read, Write};
use translate::answer::answer;

fn run_line(rt: &HostRuntime, n: usize, line: &[u8]) -> io::Result<()> {
    let mut script = Vec::new(rt.alloc());
    decode(line, &mut script)?;
    println!(rt; "case {n}")?;
    let mut out = Vec::new(rt.alloc());
    let _ = answer(rt.alloc(), &script, &mut out)?;
    rt.stdout().write_all(&out)
}

fn main(rt: HostRuntime) -> io::Result<()> {
    let mut input = Vec::new(rt.alloc());
    rt.stdin().read_to_end(&mut input)?;
    for (n, line) in input.split_inclusive(|b| *b == b'\n').enumerate() {
        // A last line without its newline is not run.
        if let Some(line) = line.strip_suffix(b"\n") {
            run_line(&rt, n, line)?;
        }
    }
    Ok(())
}
