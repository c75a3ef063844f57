// The rows of an operator, written where there is room for them, at an index of the slice that the caller supplies.
ghost use Rattle.std.specs.Prelude.{◌≡◌, ◌+◌, ◌≤◌, [], ◌∷◌, ◌++◌, length};
ghost use Rattle.target.specs.Tables.{laid};
ghost use Rattle.rows.specs.Rows.{spared, reduced, guarded_rows, compared, signed_rows, or_rows, rows_of};

use crate::application::Application;
use crate::operands::Operands;
use crate::power::Power;
use crate::put::{put, put_unless};
use crate::shift::{Left, Right};
use source::operator::Operator;
use target::row::{Row, Sort};

impl Application {
    // An operation, and its remainder by 2^k unless it stays within k bits.
    fn put_reduced(self, rows: &mut [Row], at: usize, row: Row) -> usize
        requires { at + length (reduced row (spared self.op self.o) self.o.k at) ≤ length rows.old }
        ensures table { rows.new ≡ laid rows.old at (reduced row (spared self.op self.o) self.o.k at) }
        ensures next { result ≡ at + length (reduced row (spared self.op self.o) self.o.k at) }
    {
        put_unless(
            rows,
            at,
            &[row],
            self.spared(),
            &[self.size().row(), Row::Rem(at, at + 1)],
        )
    }

    // A division; unless the divisor cannot be 0, the row `other`, for which `before` are the rows, stands in where it is.
    fn put_guarded(
        self,
        rows: &mut [Row],
        at: usize,
        division: Row,
        before: &[Row],
        other: usize,
    ) -> usize
        requires { at + length (guarded_rows division before.now other self.o.b (spared self.op self.o) at) ≤ length rows.old }
        ensures table { rows.new ≡ laid rows.old at (guarded_rows division before.now other self.o.b (spared self.op self.o) at) }
        ensures next { result ≡ at + length (guarded_rows division before.now other self.o.b (spared self.op self.o) at) }
    {
        if self.spared() {
            return put(rows, at, &[division]);
        }
        put(rows, at, &[Row::Number(0), Row::Equal(self.o.b, at)]);
        let next = put(rows, at + 2, before);
        put(
            rows,
            next,
            &[division, Row::Choose(Sort::Int, at + 1, other, next)],
        )
    }

    // The row by which a comparison, unsigned or signed, compares the rows a and b; the last are bvuge and bvsge.
    // One arm for each, since each has its own row.
    fn compared(self, a: usize, b: usize) -> Row
        ensures { result ≡ compared self.op a b }
    {
        match self.op {
            Operator::BvUlt | Operator::BvSlt => Row::Less(a, b),
            Operator::BvUle | Operator::BvSle => Row::AtMost(a, b),
            Operator::BvUgt | Operator::BvSgt => Row::Less(b, a),
            _ => Row::AtMost(b, a),
        }
    }

    // The signed numbers of both operands, and the row that compares them.
    fn put_signed(self, rows: &mut [Row], at: usize) -> usize
        requires { at + 9 ≤ length rows.old }
        ensures table { rows.new ≡ laid rows.old at (signed_rows self.o.k self.o.a self.o.b at ++ (compared self.op (at + 4) (at + 7) ∷ [])) }
        ensures next { result ≡ at + 9 }
    {
        let half = Power {
            exponent: self.o.k - 1,
        };
        put(
            rows,
            at,
            &[
                half.row(),
                Row::Number(2),
                Row::Rem(self.o.a, at),
                Row::Times(at + 1, at + 2),
                Row::Sub(at + 3, self.o.a),
                Row::Rem(self.o.b, at),
                Row::Times(at + 1, at + 5),
                Row::Sub(at + 6, self.o.b),
                self.compared(at + 4, at + 7),
            ],
        )
    }

    // The bitwise or of the first two operands, by their and, which is the third.
    fn put_or(self, rows: &mut [Row], at: usize) -> usize
        requires { at + 5 ≤ length rows.old }
        ensures table { rows.new ≡ laid rows.old at (or_rows self.o.k self.o.a self.o.b self.o.c at) }
        ensures next { result ≡ at + 5 }
    {
        let Operands { a, b, c, .. } = self.o;
        put(
            rows,
            at,
            &[
                Row::Add(a, b),
                self.size().row(),
                Row::Rem(at, at + 1),
                Row::Sub(at + 2, c),
                Row::Rem(at + 3, at + 1),
            ],
        )
    }

    // Writes the rows of the operator from the index `at` on, and answers the index after them. One arm for each operator,
    // as the table of rows has a line for each.
    pub(crate) fn write(self, rows: &mut [Row], at: usize) -> usize
        requires { at + length (rows_of self.op self.o at) ≤ length rows.old }
        ensures table { rows.new ≡ laid rows.old at (rows_of self.op self.o at) }
        ensures next { result ≡ at + length (rows_of self.op self.o at) }
    {
        let Operands { a, b, c, .. } = self.o;
        let size = self.size();
        match self.op {
            Operator::BvNot => put(
                rows,
                at,
                &[
                    Row::Number(1),
                    Row::Add(a, at),
                    size.row(),
                    Row::Sub(at + 2, at + 1),
                ],
            ),
            Operator::BvNeg => put_unless(
                rows,
                at,
                &[size.row(), Row::Sub(at, a)],
                self.spared(),
                &[Row::Rem(at + 1, at)],
            ),
            Operator::BvAdd => self.put_reduced(rows, at, Row::Add(a, b)),
            Operator::BvSub => self.put_reduced(rows, at, Row::Sub(a, b)),
            Operator::BvMul => self.put_reduced(rows, at, Row::Times(a, b)),
            Operator::BvUdiv => {
                let all_ones = Row::Number(size.top());
                self.put_guarded(rows, at, Row::Quot(a, b), &[all_ones], at + 2)
            }
            Operator::BvUrem => self.put_guarded(rows, at, Row::Rem(a, b), &[], a),
            Operator::Extract(u, l) => {
                let below = Power { exponent: l };
                let part = Power {
                    exponent: u - l + 1,
                };
                put_unless(
                    rows,
                    at,
                    &[below.row(), Row::Quot(a, at)],
                    self.spared(),
                    &[part.row(), Row::Rem(at + 1, at + 2)],
                )
            }
            Operator::Concat => {
                let second = Power { exponent: self.o.j };
                put(
                    rows,
                    at,
                    &[second.row(), Row::Times(a, at), Row::Add(at + 1, b)],
                )
            }
            Operator::BvAnd => at,
            Operator::BvOr => self.put_or(rows, at),
            Operator::BvXor => {
                let next = self.put_or(rows, at);
                put(rows, next, &[Row::Sub(at + 4, c), Row::Rem(at + 5, at + 1)])
            }
            Operator::BvLshr => {
                let next = put(rows, at, &[Row::Number(0)]);
                self.put_shift(&Right { a }, rows, next, at)
            }
            Operator::BvShl => {
                let next = put(rows, at, &[Row::Number(0), size.row()]);
                let left = Left {
                    shift: self,
                    size: at + 1,
                };
                self.put_shift(&left, rows, next, at)
            }
            Operator::BvUlt | Operator::BvUle | Operator::BvUgt | Operator::BvUge => put(
                rows,
                at,
                &[self.compared(a, b)],
            ),
            Operator::BvSlt | Operator::BvSle | Operator::BvSgt | Operator::BvSge =>
                self.put_signed(rows, at),
            Operator::Equal => put(rows, at, &[Row::Equal(a, b)]),
            Operator::Not => put(rows, at, &[Row::Not(a)]),
            Operator::And => put(rows, at, &[Row::And(a, b)]),
            Operator::Or => put(rows, at, &[Row::Or(a, b)]),
            Operator::Ite => put(rows, at, &[Row::Choose(self.o.sort, a, b, c)]),
            Operator::Implies => put(rows, at, &[Row::Not(a), Row::Or(at, b)]),
        }
    }
}
