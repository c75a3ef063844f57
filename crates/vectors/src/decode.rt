// A script from its line.
ghost use Rattle.std.specs.Prelude.{◌≡◌, ◌≤◌, List, ◌++◌, take, IfOk, vec_len};
ghost use Rattle.std.specs.List.{All};
ghost use Rattle.vectors.specs.Pieces.{Piece, IsPiece, line_of, script_of};
ghost use Rattle.vectors.specs.Steps.{digit_of};

use std::alloc::AllocError;

// The piece that is being read: where its bytes begin in the script, the digit that waits for its second, and
// how often it is to stand, once its `*` has been read.
#[derive(Clone, Copy)]
struct Reading {
    start: usize,
    high: Option<u8>,
    times: Option<usize>,
}

// The number that a hexadecimal digit stands for. `char::to_digit` would take capitals too, which say nothing here.
fn digit(b: u8) -> Option<u8>
    ensures { result ≡ digit_of b }
{
    match b {
        b'0'..=b'9' => Some(b - b'0'),
        b'a'..=b'f' => Some(b - b'a' + 10),
        _ => None,
    }
}

// Each step says that what stood before stays: behind a `&mut` only a clause does.
impl Reading {
    ghost use Rattle.vectors.specs.Steps.{state, with_copies, after_digit, after};

    // Appends the piece again so often that it stands as many times as it says, or once where that is 0.
    fn repeat(self, script: &mut Vec<u8>) -> Result<(), AllocError>
        requires { self.start ≤ vec_len script.old }
        ensures front { take (vec_len script.old) script.new.items ≡ script.old.items }
        ensures repeats { IfOk result (λ _. script.new.items ≡ with_copies (state self script.old.items)) }
    {
        let end = script.len();
        for _ in 1..self.times.unwrap_or(1) {
            script.extend_from_within(self.start..end)?;
        }
        Ok(())
    }

    // Reads a digit, of the number of times or of a byte. The digits of a byte are below 16.
    fn read_digit(self, script: &mut Vec<u8>, d: u8) -> Result<Reading, AllocError>
        ensures front { take (vec_len script.old) script.new.items ≡ script.old.items }
        ensures same_start { IfOk result (λ next. next.start ≡ self.start) }
        ensures reads { IfOk result (λ next. state next script.new.items ≡ after_digit (state self script.old.items) d) }
    {
        if let Some(times) = self.times {
            let times = Some(times.saturating_mul(10).saturating_add(usize::from(d)));
            return Ok(Reading { times, ..self });
        }
        let Some(high) = self.high else {
            return Ok(Reading {
                high: Some(d),
                ..self
            });
        };
        script.push(high % 16 * 16 + d % 16)?;
        Ok(Reading { high: None, ..self })
    }

    // Reads one more byte of the line.
    fn read(self, script: &mut Vec<u8>, b: u8) -> Result<Reading, AllocError>
        requires { self.start ≤ vec_len script.old }
        ensures front { take (vec_len script.old) script.new.items ≡ script.old.items }
        ensures within { IfOk result (λ next. next.start ≤ vec_len script.new) }
        ensures reads { IfOk result (λ next. state next script.new.items ≡ after (state self script.old.items) b) }
    {
        if b == b' ' {
            self.repeat(script)?;
            return Ok(Reading {
                start: script.len(),
                times: None,
                ..self
            });
        }
        if b == b'*' {
            return Ok(Reading {
                times: Some(0),
                ..self
            });
        }
        match digit(b) {
            Some(d) => self.read_digit(script, d),
            None => Ok(self),
        }
    }
}

// Appends the script of a line to what `script` holds. Where memory runs out, some of it may stand there.
pub fn decode(line: &[u8], script: &mut Vec<u8>) -> Result<(), AllocError>
    ensures front { take (vec_len script.old) script.new.items ≡ script.old.items }
    ensures decodes { (pieces : List Piece) → All IsPiece pieces → line.now ≡ line_of pieces → IfOk result (λ _. script.new.items ≡ script.old.items ++ script_of pieces) }
{
    let mut reading = Reading {
        start: script.len(),
        high: None,
        times: None,
    };
    for b in line {
        reading = reading.read(script, *b)?;
    }
    reading.repeat(script)
}
