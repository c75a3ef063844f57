// Sums, differences, products and negatives of bit-vectors of width k, rolling over at 2^k.
ghost use Rattle.std.specs.Prelude.{◌≡◌};
ghost use Rattle.source.specs.Numbers.{negated, sum, difference, product};

use crate::bit_vector::BitVector;
use crate::pair::Pair;

impl BitVector {
    pub(crate) fn negative(self) -> BitVector
        ensures width { result.width ≡ self.width }
        ensures number { result.number ≡ negated self.width.bits self.number }
    {
        BitVector::rolled(self.width, (1u64 << self.width.bits()) - self.number)
    }
}

impl Pair {
    pub(crate) fn sum(self) -> BitVector
        ensures width { result.width ≡ self.width }
        ensures number { result.number ≡ sum self.width.bits self.left self.right }
    {
        BitVector::rolled(self.width, self.left + self.right)
    }

    pub(crate) fn difference(self) -> BitVector
        ensures width { result.width ≡ self.width }
        ensures number { result.number ≡ difference self.width.bits self.left self.right }
    {
        let size = 1u64 << self.width.bits();
        BitVector::rolled(self.width, size + self.left - self.right)
    }

    pub(crate) fn product(self) -> BitVector
        ensures width { result.width ≡ self.width }
        ensures number { result.number ≡ product self.width.bits self.left self.right }
    {
        BitVector::rolled(self.width, self.left * self.right)
    }
}
