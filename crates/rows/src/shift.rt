// The rows of the shifts, at an index of the slice that the caller supplies.
ghost use Rattle.std.specs.Prelude.{◌≡◌, ℕ, ◌+◌, ◌≤◌, List, length};
ghost use Rattle.target.specs.declared.row.Row.{Row};
ghost use Rattle.target.specs.Tables.{laid};
ghost use Rattle.rows.specs.Rows.{amount_rows, shift_rows, right_rows, left_rows};

use crate::application::Application;
use crate::power::Power;
use crate::put::{put, put_unless};
use target::row::{Row, Sort};

// How a shift moves its operand.
pub(crate) trait Move {
    // the rows that move it, by the number of places and the index of the first of them
    ghost moved_by: { Self → ℕ → ℕ → List Row };

    // Writes the rows that move it by so many places, and answers the index after them.
    fn put_moved(&self, rows: &mut [Row], at: usize, by: Power) -> usize
        requires { at + length (moved_by self.now by.exponent at) ≤ length rows.old }
        ensures table { rows.new ≡ laid rows.old at (moved_by self.now by.exponent at) }
        ensures next { result ≡ at + length (moved_by self.now by.exponent at) };
}

// To the right.
#[derive(Clone, Copy)]
pub(crate) struct Right {
    pub(crate) a: usize,
}

impl Move for Right {
    ghost moved_by = { λ s. right_rows s.a };

    fn put_moved(&self, rows: &mut [Row], at: usize, by: Power) -> usize {
        put(rows, at, &[by.row(), Row::Quot(self.a, at)])
    }
}

// To the left within its k bits, where 2^k is the row `size`.
#[derive(Clone, Copy)]
pub(crate) struct Left {
    pub(crate) shift: Application,
    pub(crate) size: usize,
}

impl Move for Left {
    ghost moved_by = { λ s. left_rows s.shift.o.k s.shift.o.left.most s.size s.shift.o.a };

    fn put_moved(&self, rows: &mut [Row], at: usize, by: Power) -> usize {
        put_unless(
            rows,
            at,
            &[by.row(), Row::Times(self.shift.o.a, at)],
            self.shift.stays(by),
            &[Row::Rem(at + 1, self.size)],
        )
    }
}

impl Application {
    // One shift amount: whether the second operand is that, and the first moved by so many places if it is, or else the
    // former choice.
    fn put_amount<M: Move>(
        self,
        how: &M,
        rows: &mut [Row],
        at: usize,
        by: Power,
        former: usize,
    ) -> usize
        requires { at + length (amount_rows (M.moved_by how.now) self.o.b by.exponent former at) ≤ length rows.old }
        ensures table { rows.new ≡ laid rows.old at (amount_rows (M.moved_by how.now) self.o.b by.exponent former at) }
        ensures next { result ≡ at + length (amount_rows (M.moved_by how.now) self.o.b by.exponent former at) }
    {
        put(
            rows,
            at,
            &[
                Row::Number(u64::from(by.exponent)),
                Row::Equal(self.o.b, at),
            ],
        );
        let next = how.put_moved(rows, at + 2, by);
        put(
            rows,
            next,
            &[Row::Choose(Sort::Int, at + 1, next - 1, former)],
        )
    }

    // All shift amounts from k - 1 down to 0; the row `first` is the choice before them.
    pub(crate) fn put_shift<M: Move>(
        self,
        how: &M,
        rows: &mut [Row],
        at: usize,
        first: usize,
    ) -> usize
        requires { at + length (shift_rows (M.moved_by how.now) self.o.b self.o.k first at) ≤ length rows.old }
        ensures table { rows.new ≡ laid rows.old at (shift_rows (M.moved_by how.now) self.o.b self.o.k first at) }
        ensures next { result ≡ at + length (shift_rows (M.moved_by how.now) self.o.b self.o.k first at) }
    {
        let mut former = first;
        let mut next = at;
        // i is the amount that the rows test, and each choice names the one before
        for i in (0..self.o.k).rev() {
            next = self.put_amount(how, rows, next, Power { exponent: i }, former);
            former = next - 1;
        }
        next
    }
}
