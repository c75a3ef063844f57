// What an operator asks of the sorts of its operands. Those stand side by side: a struct would be built at each call, and
// taken apart in it.
ghost use Rattle.std.specs.Prelude.{◌≡◌};
ghost use Rattle.source.specs.Sorts.{count_of, fits};

use crate::order::Sort;

#[derive(Clone, Copy, PartialEq, Eq, Debug)]
pub enum Shape {
    // one of bits
    OneBits,
    // two of bits, of one width
    TwoBits,
    // two of bits, of any widths
    AnyBits,
    // one truth value
    OneTruth,
    // two truth values
    TwoTruths,
    // two of one sort
    TwoAlike,
    // a truth value, and two of one sort
    Choice,
}

impl Shape {
    // How many operands there are.
    pub fn operands(self) -> usize
        ensures { result ≡ count_of self }
    {
        match self {
            Shape::OneBits | Shape::OneTruth => 1,
            Shape::TwoBits | Shape::AnyBits | Shape::TwoTruths | Shape::TwoAlike => 2,
            Shape::Choice => 3,
        }
    }

    // Whether operands of these sorts are taken; an operand that there is not is not looked at.
    pub fn fits(self, a: Sort, b: Sort, c: Sort) -> bool
        ensures { result ≡ fits self a b c }
    {
        match self {
            Shape::OneBits => a.is_bits(),
            Shape::TwoBits => a.is_bits() && a.alike(b),
            Shape::AnyBits => a.is_bits() && b.is_bits(),
            Shape::OneTruth => a.is_bool(),
            Shape::TwoTruths => a.is_bool() && b.is_bool(),
            Shape::TwoAlike => a.alike(b),
            Shape::Choice => a.is_bool() && b.alike(c),
        }
    }
}
