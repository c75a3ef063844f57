// The whole text.
ghost use Rattle.std.specs.Prelude.{◌≡◌, ◌+◌, ◌≤◌, true, false, ◌++◌, length, take, is_ok, if◌then◌else◌, vec_len, vec_capacity};
ghost use Rattle.text.specs.declared.whole.Unwritten.TheVariants.{Memory, Refused};
ghost use Rattle.text.specs.Lines.{named_by};
ghost use Rattle.text.specs.Law.{text_of, States};
ghost use Rattle.text.specs.Outcome.{rows_of, asserted_of, short, text_answer, the_text};

use crate::counted::counted;
use crate::draft::Draft;
use crate::lines::draw;
use refusal::Refusal;
use std::alloc::AllocError;
use target::table::Target;
use workbook::book::Sealed;

// Why a text was not written: memory ran out, or a table is shorter than its count.
#[derive(Clone, Copy, PartialEq, Eq, Debug)]
pub enum Unwritten {
    Memory,
    Refused(Refusal),
}

impl From<AllocError> for Unwritten {
    ghost from_gives = { λ _ e. e ≡ Memory };

    fn from(_e: AllocError) -> Unwritten {
        Unwritten::Memory
    }
}

impl From<Refusal> for Unwritten {
    ghost from_gives = { λ refusal e. e ≡ Refused refusal };

    fn from(refusal: Refusal) -> Unwritten {
        Unwritten::Refused(refusal)
    }
}

// Appends the text of all these rows and assertions. Where memory runs out, some of it stands behind what
// `out` held.
#[tactic(auto, using(crate::proofs::Wholes::wholes))]
fn append_lines(target: Target<'_>, out: &mut Vec<u8>) -> Result<(), AllocError>
    ensures all { is_ok result ≡ true → out.new.items ≡ out.old.items ++ text_of target.entry.rows.now (named_by target.entry.assertions.now) }
    ensures enough { vec_len out.old + length (text_of target.entry.rows.now (named_by target.entry.assertions.now)) ≤ vec_capacity out.old → is_ok result ≡ true }
    ensures front { take (vec_len out.old) out.new.items ≡ out.old.items }
{
    // by line number, so that these are the lines that `line` writes; one draft for all of them
    let mut line = Draft::new();
    for n in 0..target.rows.len() + target.assertions.len() + 2 {
        if draw(&mut line, target, n).is_some() {
            out.extend_from_slice(line.bytes())?;
        }
    }
    Ok(())
}

// Appends the workbook's text to `out`. `target` has the workbook's tables. Where the call fails, `out` holds what it
// held.
#[tactic(auto, using(crate::proofs::Reading::states_no_other))]
pub fn write_text(book: &Sealed, target: Target<'_>, out: &mut Vec<u8>) -> Result<(), Unwritten>
    ensures outcome { out.new.items ≡ (if is_ok result then out.old.items ++ the_text book.now.counts target.entry.rows.now target.entry.assertions.now else out.old.items) }
    ensures refuses { result ≡ text_answer book.now.counts target.entry.rows.now target.entry.assertions.now (is_ok result) }
    ensures enough { short book.now.counts target.entry.rows.now target.entry.assertions.now ≡ false → vec_len out.old + length (the_text book.now.counts target.entry.rows.now target.entry.assertions.now) ≤ vec_capacity out.old → is_ok result ≡ true }
    ensures states { States (rows_of book.now.counts target.entry.rows.now) (asserted_of book.now.counts target.entry.assertions.now) }
{
    let target = counted(book.counts(), target)?;
    let before = out.len();
    let written = append_lines(target, out);
    if written.is_err() {
        out.truncate(before);
    }
    written.map_err(Unwritten::from)
}
