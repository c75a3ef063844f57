// The program: reads a script on standard input and prints its text on standard output.
//
// Everything that matters is in `translate::answer::answer`, whose contract says what is printed and whether
// the script was granted; here the bytes are only read and written. A refusal ends with status 1.
#![tactic(auto)]

use std::io;
use std::io::{Read, Write};
use std::process::ExitCode;
use translate::answer::{BYTES, answer};

// One byte more than a script may have, so that a longer one shows. (`as`, since no `From` makes a `u64` of a `usize`.)
const ENOUGH: u64 = BYTES as u64 + 1;

fn run(rt: &HostRuntime) -> io::Result<ExitCode> {
    let mut script = Vec::new(rt.alloc());
    rt.stdin().take(ENOUGH).read_to_end(&mut script)?;
    let mut out = Vec::new(rt.alloc());
    let answered = answer(rt.alloc(), &script, &mut out)?;
    rt.stdout().write_all(&out)?;
    Ok(match answered {
        Ok(()) => ExitCode::SUCCESS,
        Err(_) => ExitCode::FAILURE,
    })
}

fn main(rt: HostRuntime) -> ExitCode {
    match run(&rt) {
        Ok(status) => status,
        Err(e) => {
            let _ = eprintln!(rt; "blast: {e}");
            ExitCode::FAILURE
        }
    }
}
