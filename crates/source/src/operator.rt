// The operators of the language: how many operands each takes, of which sorts, and the sort of what it gives. The sorts of
// operands stand side by side: a struct would be built at each call, and taken apart in it.
ghost use Rattle.std.specs.Prelude.{◌≡◌, true, false, ◌&&◌, MatchOption};
ghost use Rattle.source.specs.Sorts.{shape_of, count_of, fits, in_bounds, result_sort};

use crate::order::Sort;
use crate::shape::Shape;

// An operator with what belongs to it besides its operands: extract's upper and lower bit.
#[derive(Clone, Copy, PartialEq, Eq, Debug)]
pub enum Operator {
    BvNot,
    BvNeg,
    BvAdd,
    BvSub,
    BvMul,
    BvUdiv,
    BvUrem,
    Extract(u32, u32),
    Concat,
    BvAnd,
    BvOr,
    BvXor,
    BvLshr,
    BvShl,
    BvUlt,
    BvUle,
    BvUgt,
    BvUge,
    BvSlt,
    BvSle,
    BvSgt,
    BvSge,
    Equal,
    Not,
    And,
    Or,
    Ite,
    Implies,
}

impl Operator {
    pub fn shape(self) -> Shape
        ensures { result ≡ shape_of self }
    {
        match self {
            Operator::BvNot | Operator::BvNeg | Operator::Extract(_, _) => Shape::OneBits,
            Operator::BvAdd
            | Operator::BvSub
            | Operator::BvMul
            | Operator::BvUdiv
            | Operator::BvUrem => Shape::TwoBits,
            Operator::BvAnd
            | Operator::BvOr
            | Operator::BvXor
            | Operator::BvLshr
            | Operator::BvShl => Shape::TwoBits,
            Operator::BvUlt | Operator::BvUle | Operator::BvUgt | Operator::BvUge => Shape::TwoBits,
            Operator::BvSlt | Operator::BvSle | Operator::BvSgt | Operator::BvSge => Shape::TwoBits,
            Operator::Concat => Shape::AnyBits,
            Operator::Equal => Shape::TwoAlike,
            Operator::Not => Shape::OneTruth,
            Operator::And | Operator::Or | Operator::Implies => Shape::TwoTruths,
            Operator::Ite => Shape::Choice,
        }
    }

    pub fn operands(self) -> usize
        ensures { result ≡ count_of (shape_of self) }
    {
        self.shape().operands()
    }

    // Whether operands of these sorts are taken; an operand that there is not is not looked at.
    pub fn fits(self, a: Sort, b: Sort, c: Sort) -> bool
        ensures { result ≡ fits (shape_of self) a b c }
    {
        self.shape().fits(a, b, c)
    }

    // Whether extract's bounds lie within its operand, and a concatenation within 32 bits.
    pub fn in_bounds(self, a: Sort, b: Sort) -> bool
        ensures { result ≡ in_bounds self a b }
    {
        match self {
            Operator::Extract(upper, lower) => lower <= upper && upper < a.width(),
            Operator::Concat => a.width() <= 32 && b.width() <= 32 - a.width(),
            _ => true,
        }
    }

    // The sort of what the operator gives, if it takes operands of these sorts.
    pub fn result(self, a: Sort, b: Sort, c: Sort) -> Option<Sort>
        ensures { MatchOption result ((fits (shape_of self) a b c && in_bounds self a b) ≡ false) (λ s. ((fits (shape_of self) a b c && in_bounds self a b) ≡ true) × (s ≡ result_sort self a b c)) }
    {
        if self.fits(a, b, c) && self.in_bounds(a, b) {
            Some(self.given_sort(a, b, c))
        } else {
            None
        }
    }

    fn given_sort(self, a: Sort, b: Sort, c: Sort) -> Sort
        requires { in_bounds self a b ≡ true }
        ensures { result ≡ result_sort self a b c }
    {
        match self {
            Operator::Extract(upper, lower) => Sort::Bits(upper - lower + 1),
            Operator::Concat => Sort::Bits(a.width() + b.width()),
            Operator::Ite => b,
            Operator::BvUlt | Operator::BvUle | Operator::BvUgt | Operator::BvUge => Sort::Bool,
            Operator::BvSlt | Operator::BvSle | Operator::BvSgt | Operator::BvSge => Sort::Bool,
            Operator::Equal | Operator::Not | Operator::And | Operator::Or | Operator::Implies =>
                Sort::Bool,
            _ => a,
        }
    }
}
