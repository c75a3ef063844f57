// Division of bit-vectors. By zero it gives all ones, and the dividend as remainder.
ghost use Rattle.std.specs.Prelude.{◌≡◌};
ghost use Rattle.source.specs.Numbers.{quotient, remainder};

use crate::bit_vector::BitVector;
use crate::pair::Pair;

impl Pair {
    pub(crate) fn quotient(self) -> BitVector
        ensures width { result.width ≡ self.width }
        ensures number { result.number ≡ quotient self.width.bits self.left self.right }
    {
        let number = if self.right == 0 {
            (1u64 << self.width.bits()) - 1
        } else {
            self.left / self.right
        };
        BitVector::of(self.width, number)
    }

    pub(crate) fn remainder(self) -> BitVector
        ensures width { result.width ≡ self.width }
        ensures number { result.number ≡ remainder self.left self.right }
    {
        let number = if self.right == 0 {
            self.left
        } else {
            self.left % self.right
        };
        BitVector::of(self.width, number)
    }
}
