// What the program prints for a script.
ghost use Rattle.std.specs.Prelude.{◌≡◌, false, ◌++◌, length, IfOk};
ghost use Rattle.text.specs.Outcome.{short};
ghost use Rattle.workbook.specs.Pages.{pages_at, nothing_used};
ghost use Rattle.translate.specs.Translation.{Left};
ghost use Rattle.translate.specs.Answer.{answered, line_or_text, verdict, Printed, printed, granted};

use crate::translate::translate;
use keeper::interval::Interval;
use keeper::record::IntervalRecord;
use refusal::{Cause, Refusal};
use script::names::Name;
use script::read::{BLANK_NAME, BLANK_ORDER};
use source::order::{Act, Order, Sort, Source};
use source::width::Width;
use std::alloc::{AllocError, Global};
use target::assertion::{Assertion, Kind};
use target::row::Row;
use target::table::Target;
use text::refused::write_refusal;
use text::whole::{Unwritten, write_text};
use workbook::book::Sealed;
use workbook::tables::Tables;

// The most bytes that a script may have.
pub const BYTES: usize = 16384;

// The program's own tables.
#[derive(Drop)]
struct Own {
    orders: Vec<Order>,
    names: Vec<Name>,
    sources: Vec<Source>,
    records: Vec<IntervalRecord>,
    rows: Vec<Row>,
    assertions: Vec<Assertion>,
}

impl Own {
    ghost use Rattle.translate.specs.Answer.{IsBlank};

    // Tables of which nothing is in use: 2,048 target rows, the others at their limits.
    fn new(alloc: Global) -> Result<Own, AllocError>
        ensures { IfOk result IsBlank }
    {
        let source = Source {
            act: Act::Declare(0),
            sort: Sort::Bool,
            image: 0,
        };
        let record = IntervalRecord::whole(Width::new(1).unwrap());
        let assertion = Assertion {
            row: 0,
            source: 0,
            kind: Kind::Range,
        };
        Ok(Own {
            orders: vec![in alloc; BLANK_ORDER; 1024]?,
            names: vec![in alloc; BLANK_NAME; 256]?,
            sources: vec![in alloc; source; 1024]?,
            records: vec![in alloc; record; 1024]?,
            rows: vec![in alloc; Row::Unknown; 2048]?,
            assertions: vec![in alloc; assertion; 4096]?,
        })
    }
}

// The tables that a script is translated on.
#[derive(Drop)]
struct Lent<'a> {
    orders: &'a mut [Order],
    names: &'a mut [Name],
    tables: Tables<'a, IntervalRecord>,
}

// Translates a script on these tables, or refuses one that is too long for the program.
fn attempt(script: &[u8], lent: &mut Lent<'_>) -> Result<Sealed, Refusal>
    ensures { Left (answered (length lent.old.orders.now) (length lent.old.names.now) script.now (pages_at nothing_used lent.old.tables)) result lent.new.tables }
{
    if script.len() > BYTES {
        return Err(Cause::Capacity.at(BYTES));
    }
    translate(script, lent.orders, lent.names, &Interval, &mut lent.tables)
}

// Writes the text of a sealed workbook, or the line of a refusal, which is then the answer.
fn put(
    outcome: Result<Sealed, Refusal>,
    tables: &Tables<'_, IntervalRecord>,
    out: &mut Vec<u8>,
) -> Result<Result<(), Refusal>, AllocError>
    requires { IfOk outcome (λ book. short book.counts tables.now.rows.now tables.now.assertions.now ≡ false) }
    ensures { IfOk result (λ answer. (answer ≡ verdict outcome) × (out.new.items ≡ out.old.items ++ line_or_text outcome tables.now.rows.now tables.now.assertions.now)) }
{
    let target = Target {
        rows: tables.rows,
        assertions: tables.assertions,
    };
    let written = match outcome {
        Ok(book) => write_text(&book, target, out),
        Err(refusal) => Err(Unwritten::Refused(refusal)),
    };
    // want of memory ends the call, while a refusal is printed and is the answer
    match written {
        Ok(()) => Ok(Ok(())),
        Err(Unwritten::Memory) => Err(AllocError),
        Err(Unwritten::Refused(refusal)) => {
            write_refusal(refusal, out)?;
            Ok(Err(refusal))
        }
    }
}

// Translates a script on these tables and writes what is printed for it.
fn answer_on(
    script: &[u8],
    lent: &mut Lent<'_>,
    out: &mut Vec<u8>,
) -> Result<Result<(), Refusal>, AllocError>
    ensures { IfOk result (λ answer. Printed (answered (length lent.old.orders.now) (length lent.old.names.now) script.now (pages_at nothing_used lent.old.tables)) out.old.items answer out.new.items) }
{
    let outcome = attempt(script, lent);
    put(outcome, &lent.tables, out)
}

// What the program prints for a script, appended to `out`: the script's text, or the line of its refusal, which is
// then the answer. The call itself fails only for want of memory. (One result in the other, so that `?` passes on want of
// memory alone.)
pub fn answer(
    heap: Global,
    script: &[u8],
    out: &mut Vec<u8>,
) -> Result<Result<(), Refusal>, AllocError>
    ensures printed { IfOk result (λ answer. (answer ≡ granted script.now) × (out.new.items ≡ out.old.items ++ printed script.now)) }
{
    let mut own = Own::new(heap)?;
    let tables = Tables {
        sources: &mut own.sources,
        records: &mut own.records,
        rows: &mut own.rows,
        assertions: &mut own.assertions,
    };
    let mut lent = Lent {
        orders: &mut own.orders,
        names: &mut own.names,
        tables,
    };
    answer_on(script, &mut lent, out)
}
