// Rows written where there is room for them.
//
// The table is a slice that the caller supplies, so rows are put at an index, and the answer is the index after them. No
// struct holds slice and index: a block names its rows by the same index, so each would take it out again.
ghost use Rattle.std.specs.Prelude.{◌≡◌, ◌+◌, ◌≤◌, ◌++◌, length, nat_le};
ghost use Rattle.target.specs.Tables.{laid};
ghost use Rattle.rows.specs.Rows.{unless};

use target::row::Row;
use target::table::lay;

// Whether there is room for so many rows from the index `at` on.
pub(crate) fn has_room(rows: &[Row], at: usize, count: usize) -> bool
    ensures { result ≡ nat_le (at + count) (length rows.now) }
{
    at <= rows.len() && count <= rows.len() - at
}

// Writes `new` from the index `at` on, and answers the index after it. (Schemes have one of their own: one for both would
// be a public call that asks for room, and a public call takes every input.)
pub(crate) fn put(rows: &mut [Row], at: usize, new: &[Row]) -> usize
    requires { at + length new.now ≤ length rows.old }
    ensures table { rows.new ≡ laid rows.old at new.now }
    ensures next { result ≡ at + length new.now }
{
    let _ = lay(rows, at, new);
    at + new.len()
}

// Writes `first` from the index `at` on, and then `rest` unless it is spared; answers the index after the last row. A
// flag, as in the definition of the rows: else each caller would test it between two puts.
pub(crate) fn put_unless(
    rows: &mut [Row],
    at: usize,
    first: &[Row],
    spared: bool,
    rest: &[Row],
) -> usize
    requires { at + length (first.now ++ unless spared rest.now) ≤ length rows.old }
    ensures table { rows.new ≡ laid rows.old at (first.now ++ unless spared rest.now) }
    ensures next { result ≡ at + length (first.now ++ unless spared rest.now) }
{
    let next = put(rows, at, first);
    if spared {
        return next;
    }
    put(rows, next, rest)
}
