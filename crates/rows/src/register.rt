// The rows of a register, a constant and a truth value, at an index of the slice that the caller supplies.
ghost use Rattle.std.specs.Prelude.{◌≡◌, ◌+◌, ◌≤◌, true, ◌&&◌, [], ◌∷◌, length, take, is_some, if◌then◌else◌, Some, None, nat_le};
ghost use Rattle.source.specs.Widths.{is_width};
ghost use Rattle.target.specs.Tables.{laid, laid_if_room};
ghost use Rattle.rows.specs.Rows.{register_rows, value_row};
ghost use Rattle.rows.specs.Law.{RegisterMeans, ValueMeans};

use crate::power::Power;
use crate::put::{has_room, put};
use source::value::Value;
use source::width::Width;
use target::row::Row;
use target::table::lay;

// Writes the rows of a register, or of an and-unknown, whose numbers lie below `size`, and answers the last of them.
pub(crate) fn write_register(rows: &mut [Row], at: usize, size: Power) -> usize
    requires { at + 6 ≤ length rows.old }
    ensures table { rows.new ≡ laid rows.old at (register_rows size.exponent at) }
    ensures last { result ≡ at + 5 }
{
    put(
        rows,
        at,
        &[
            Row::Unknown,
            Row::Number(0),
            size.row(),
            Row::AtMost(at + 1, at),
            Row::Less(at, at + 2),
            Row::And(at + 3, at + 4),
        ],
    ) - 1
}

// Appends the rows of a register of k bits at the index `at`: its unknown, and as the last one, which is the answer,
// the row that is true exactly when that is a number of k bits. Where k is no width or the rows do not fit, the answer
// is None and nothing is written.
pub fn append_register(rows: &mut [Row], at: usize, k: u32) -> Option<usize>
    ensures last { result ≡ (if is_width k && nat_le (at + 6) (length rows.old) then Some (at + 5) else None) }
    ensures table { rows.new ≡ (if is_some result then laid rows.old at (register_rows k at) else rows.old) }
    ensures law { is_some result ≡ true → RegisterMeans k (take at rows.old) at (take (at + 6) rows.new) }
{
    let width = Width::new(k)?;
    if !has_room(rows, at, 6) {
        return None;
    }
    Some(write_register(
        rows,
        at,
        Power {
            exponent: width.bits(),
        },
    ))
}

// The row of a constant or a truth value.
fn value_row(v: Value) -> Row
    ensures { result ≡ value_row v }
{
    match v {
        Value::Bool(b) => Row::Truth(b),
        Value::Bits(_, n) => Row::Number(n),
    }
}

// Appends the row of a constant or a truth value, and answers its image, which is that row. Where it does not fit, the
// answer is None and nothing is written.
pub fn append_value(rows: &mut [Row], at: usize, v: Value) -> Option<usize>
    ensures image { result ≡ (if nat_le (at + 1) (length rows.old) then Some at else None) }
    ensures table { rows.new ≡ laid_if_room rows.old at (value_row v ∷ []) }
    ensures law { is_some result ≡ true → ValueMeans v (take at rows.old) at (take (at + 1) rows.new) }
{
    lay(rows, at, &[value_row(v)])?;
    Some(at)
}
