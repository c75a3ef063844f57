// How many rows and assertions an order takes.
ghost use Rattle.std.specs.Prelude.{◌≡◌, ℕ, ◌+◌, ◌*◌, ◌<◌, ◌≤◌, ◌&&◌, List, if◌then◌else◌, Some, None, nat_le};
ghost use Rattle.target.specs.declared.row.Row.{Row};
ghost use Rattle.rows.specs.Counts.{left_count, own_count, row_count, assertion_count, RowsCounted};
ghost use Rattle.rows.specs.Limits.{usable};

use crate::application::Application;
use crate::limits::has_and;
use crate::operands::Operands;
use crate::power::Power;
use source::operator::Operator;

impl Application {
    // The rows of the operator, without those of an and-unknown and an and-scheme. (Apart from `write`, since how many
    // there are is asked before any is written; one arm for each operator, since each has its own count. `as`, since no `From` makes a `usize` of a `u32`.)
    pub(crate) fn count(self) -> usize
        ensures { (result ≡ own_count self.op self.o) × (result ≤ 194) }
    {
        let spared = self.spared();
        match self.op {
            Operator::BvNot => 4,
            Operator::BvNeg => if spared { 2 } else { 3 },
            Operator::BvAdd | Operator::BvSub | Operator::BvMul => if spared { 1 } else { 3 },
            Operator::BvUdiv => if spared { 1 } else { 5 },
            Operator::BvUrem => if spared { 1 } else { 4 },
            Operator::Extract(_, _) => if spared { 2 } else { 4 },
            Operator::Concat => 3,
            Operator::BvAnd => 0,
            Operator::BvOr => 5,
            Operator::BvXor => 7,
            Operator::BvLshr => 1 + 5 * self.o.k as usize,
            Operator::BvShl => 2 + self.left_count(),
            Operator::BvSlt | Operator::BvSle | Operator::BvSgt | Operator::BvSge => 9,
            Operator::BvUlt | Operator::BvUle | Operator::BvUgt | Operator::BvUge => 1,
            Operator::Equal | Operator::Not | Operator::And | Operator::Or | Operator::Ite => 1,
            Operator::Implies => 2,
        }
    }

    // The rows of all amounts of a shift to the left, those below k.
    fn left_count(self) -> usize
        ensures { (result ≡ left_count self.o.k self.o.left.most self.o.k) × (result ≤ 6 * self.o.k) }
    {
        let mut n: usize = 0;

        // A closure for `map` and `sum` would need a clause of its own, that the amount is at most 32, and be longer.
        for i in 0..self.o.k {
            n += if self.stays(Power { exponent: i }) {
                5
            } else {
                6
            };
        }
        n
    }
}

// All rows of an order, where its and-scheme adds `size` rows, if it has one. None where no rows can be made for these
// operands, or where `size` is more than any table takes. (Operator and operands stand side by side: the call takes every
// pair of them, and an `Application` is one that was tested.)
pub fn row_count(op: Operator, o: Operands, size: usize) -> Option<usize>
    ensures count { result ≡ (if usable op o && nat_le size 32768 then Some (row_count op o size) else None) }
    ensures length { (at : ℕ) (new : List Row) → RowsCounted op o at new }
{
    let order = Application::new(op, o)?;
    if size > 32768 {
        return None; // before the rows of a shift are counted one by one
    }
    let own = order.count();
    Some(if has_and(op) { 6 + size + own } else { own })
}

// All assertions of an order.
pub fn assertion_count(op: Operator) -> usize
    ensures { result ≡ assertion_count op }
{
    if has_and(op) { 2 } else { 0 }
}
