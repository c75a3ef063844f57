// The rows of an operator, at an index of the slice that the caller supplies.
ghost use Rattle.std.specs.Prelude.{◌≡◌, ◌+◌, ◌≤◌, true, ◌&&◌, length, take, is_some, if◌then◌else◌, Some, None, nat_le};
ghost use Rattle.target.specs.Tables.{laid};
ghost use Rattle.rows.specs.Rows.{rows_of, image};
ghost use Rattle.rows.specs.Counts.{own_count};
ghost use Rattle.rows.specs.Limits.{usable};
ghost use Rattle.rows.specs.Law.{OrderMeans};

use crate::application::Application;
use crate::operands::Operands;
use crate::put::has_room;
use source::operator::Operator;
use target::row::Row;

impl Application {
    // Writes the rows of the operator, for which there is room, and answers the image.
    pub(crate) fn put(self, rows: &mut [Row], at: usize) -> usize
        requires { at + own_count self.op self.o ≤ length rows.old }
        ensures table { rows.new ≡ laid rows.old at (rows_of self.op self.o at) }
        ensures last { result ≡ image self.op self.o at }
    {
        let next = self.write(rows, at);
        match self.op {
            // it has no rows here: its image is the and-unknown
            Operator::BvAnd => self.o.c,
            _ => next - 1,
        }
    }
}

// Appends the rows of an operator at the index `at`, and answers its image. Of bvand, bvor and bvxor these are the
// rows after the and-scheme's, and the third operand is the and-unknown. Where no rows can be made for the operands,
// or they do not fit, the answer is None and nothing is written. (Operator and operands stand side by side: the call takes
// every pair of them, and an `Application` is one that was tested.)
pub fn append(rows: &mut [Row], at: usize, op: Operator, o: Operands) -> Option<usize>
    ensures answer { result ≡ (if usable op o && nat_le (at + own_count op o) (length rows.old) then Some (image op o at) else None) }
    ensures table { rows.new ≡ (if is_some result then laid rows.old at (rows_of op o at) else rows.old) }
    ensures law { is_some result ≡ true → OrderMeans op o (take at rows.old) at (take (at + own_count op o) rows.new) }
{
    let order = Application::new(op, o)?;
    if !has_room(rows, at, order.count()) {
        return None;
    }
    Some(order.put(rows, at))
}
