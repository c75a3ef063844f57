// Tables of rows: written, and read.
ghost use Rattle.std.specs.Prelude.{◌≡◌, ◌+◌, ◌≤◌, length, if◌then◌else◌, Some, None, nat_le};
ghost use Rattle.target.specs.Tables.{laid, laid_if_room};

use crate::assertion::Assertion;
use crate::row::Row;

// The rows and the assertions of a target, which the caller supplies.
#[derive(Clone, Copy)]
pub struct Target<'a> {
    pub rows: &'a [Row],
    pub assertions: &'a [Assertion],
}

// Writes `new` into the table from the index `at` on, and answers the index after it; where it does not fit, nothing
// is written. (At an index, since the table is a slice that the caller supplies.)
pub fn lay(rows: &mut [Row], at: usize, new: &[Row]) -> Option<usize>
    ensures fits { result ≡ (if nat_le (at + length new.now) (length rows.old) then Some (at + length new.now) else None) }
    ensures table { rows.new ≡ laid_if_room rows.old at new.now }

    // The two where there is room.
    ensures room { at + length new.now ≤ length rows.old → (result ≡ Some (at + length new.now)) × (rows.new ≡ laid rows.old at new.now) }
{
    let after = at.checked_add(new.len())?;
    if after > rows.len() {
        return None;
    }
    rows[at..after].copy_from_slice(new);
    Some(after)
}
