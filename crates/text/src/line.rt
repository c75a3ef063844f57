// One line of the text.
ghost use Rattle.std.specs.Prelude.{◌≡◌, ◌<◌, ◌≤◌, true, length, is_ok, IfOk};
ghost use Rattle.text.specs.Outcome.{rows_of, asserted_of, count_of, line_answer, line_buffer};
ghost use Rattle.text.specs.Room.{Limited};

use crate::counted::{counted, no_line};
use crate::draft::Draft;
use crate::lines::draw;
use refusal::Refusal;
use target::table::Target;
use workbook::book::Sealed;

// Writes line `n` of the workbook's text at the front of the buffer, and answers its length. `target` has the
// workbook's tables. Where the call refuses, the number beside the cause is how many lines the text has, and the
// buffer is as it was.
#[tactic(auto, using(crate::proofs::Tables::tables))]
pub fn line(
    book: &Sealed,
    target: Target<'_>,
    n: usize,
    buffer: &mut [u8],
) -> Result<usize, Refusal>
    ensures answer { result ≡ line_answer book.now.counts target.entry.rows.now target.entry.assertions.now n (length buffer.old) }
    ensures bytes { buffer.new ≡ line_buffer book.now.counts target.entry.rows.now target.entry.assertions.now n buffer.old }
    ensures within { IfOk result (λ k. k ≤ length buffer.old) }
    ensures room { book.now.counts.rows ≤ length target.entry.rows.now → book.now.counts.assertions ≤ length target.entry.assertions.now → n < count_of book.now.counts → 64 ≤ length buffer.old → Limited (rows_of book.now.counts target.entry.rows.now) (asserted_of book.now.counts target.entry.assertions.now) → is_ok result ≡ true }
{
    let counts = book.counts();
    let refused = no_line(counts);
    let mut line = Draft::new();
    draw(&mut line, counted(counts, target)?, n).ok_or(refused)?;
    let bytes = line.bytes();
    if buffer.len() < 64 || buffer.len() < bytes.len() {
        return Err(refused);
    }
    buffer[..bytes.len()].copy_from_slice(bytes); // from the draft, whose head says why no `write!`
    Ok(bytes.len())
}
