// An operator and operands that rows can be made for.
ghost use Rattle.std.specs.Prelude.{◌≡◌, ◌*◌, ◌^◌, true, false, nat_le, MatchOption};
ghost use Rattle.rows.specs.Operands.{with_third};
ghost use Rattle.rows.specs.Rows.{top, spared};
ghost use Rattle.rows.specs.Limits.{usable};

use crate::limits::is_usable;
use crate::operands::Operands;
use crate::power::Power;
use source::operator::Operator;

#[derive(Clone, Copy)]
pub(crate) struct Application {
    pub(crate) op: Operator,
    pub(crate) o: Operands,
    ghost ok: { usable op o ≡ true },
}

impl Application {
    // The operator at these operands, if rows can be made for them.
    pub(crate) fn new(op: Operator, o: Operands) -> Option<Application>
        ensures { MatchOption result (usable op o ≡ false) (λ s. (usable op o ≡ true) × (s.op ≡ op) × (s.o ≡ o)) }
    {
        if is_usable(op, o) {
            Some(Application { op, o })
        } else {
            None
        }
    }

    // The same with another image of the third operand. (Field by field: a literal of a struct with a ghost field takes no
    // `..` yet.)
    pub(crate) fn with_third(self, c: usize) -> Application
        ensures op { result.op ≡ self.op }
        ensures operands { result.o ≡ with_third self.o c }
    {
        Application {
            op: self.op,
            o: self.o.with_third(c),
        }
    }

    // 2^k, where the first operand is of k bits.
    pub(crate) fn size(self) -> Power
        ensures { result.exponent ≡ self.o.k }
    {
        Power { exponent: self.o.k }
    }

    // Whether the bounds show that the rows which correct the operation would change nothing. One arm for each operator that
    // has such rows, since each has its own bounds.
    pub(crate) fn spared(self) -> bool
        ensures { result ≡ spared self.op self.o }
    {
        let Operands { left, right, .. } = self.o;
        match self.op {
            Operator::BvNeg => left.least >= 1,
            Operator::BvAdd => self.size().exceeds(left.most + right.most),
            Operator::BvSub => right.most <= left.least,
            Operator::BvMul => self.size().exceeds(left.most * right.most),
            Operator::BvUdiv | Operator::BvUrem => right.least >= 1,
            Operator::Extract(u, l) => {
                let part = Power {
                    exponent: u - l + 1,
                };
                left.most >> l < part.number()
            }
            _ => false,
        }
    }

    // Whether the first operand stays within its bits when it is moved to the left by so many places.
    pub(crate) fn stays(self, by: Power) -> bool
        ensures { result ≡ nat_le (self.o.left.most * 2 ^ by.exponent) (top self.o.k) }
    {
        self.size().exceeds(self.o.left.most * by.number())
    }
}
