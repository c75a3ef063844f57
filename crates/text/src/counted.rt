// The part of the tables that a workbook counts.
ghost use Rattle.std.specs.Prelude.{◌≡◌};
ghost use Rattle.text.specs.Outcome.{the_refusal, counted_or_refused};

use refusal::{Cause, Refusal};
use target::table::Target;
use workbook::counts::Counts;

// The refusal of both calls, which tells how many lines the text has.
pub(crate) fn no_line(counts: Counts) -> Refusal
    ensures { result ≡ the_refusal counts }
{
    Cause::Line.at(counts.rows + counts.assertions + 2)
}

// The rows and assertions that a workbook counts, where no table is shorter than its count.
pub(crate) fn counted(counts: Counts, target: Target<'_>) -> Result<Target<'_>, Refusal>
    ensures { counted_or_refused counts target.entry.rows.now target.entry.assertions.now result }
{
    let short = no_line(counts);
    let rows = target.rows.get(..counts.rows).ok_or(short)?;
    let assertions = target.assertions.get(..counts.assertions).ok_or(short)?;
    Ok(Target { rows, assertions })
}
