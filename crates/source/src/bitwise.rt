// Functions of bits: turned over, taken out, joined, and bit by bit.
ghost use Rattle.std.specs.Prelude.{◌≡◌, ◌+◌, ◌-◌, ◌<◌, ◌≤◌, bit_and, bit_or, bit_xor};
ghost use Rattle.source.specs.Numbers.{complement, extracted, joined};

use crate::bit_vector::BitVector;
use crate::pair::Pair;
use crate::width::Width;

impl BitVector {
    pub(crate) fn complement(self) -> BitVector
        ensures width { result.width ≡ self.width }
        ensures number { result.number ≡ complement self.width.bits self.number }
    {
        BitVector::of(self.width, (1u64 << self.width.bits()) - 1 - self.number)
    }

    // The bits from the upper one down to the lower one.
    pub(crate) fn extract(self, upper: u32, lower: u32) -> BitVector
        requires { (lower ≤ upper) × (upper < self.width.bits) }
        ensures width { result.width.bits ≡ upper - lower + 1 }
        ensures number { result.number ≡ extracted upper lower self.number }
    {
        BitVector::rolled(Width::new(upper - lower + 1).unwrap(), self.number >> lower)
    }

    // The bits, and after them those of the other.
    #[tactic(auto, using(crate::proofs::Bounds::joined_lt))]
    pub(crate) fn concat(self, other: BitVector) -> BitVector
        requires { self.width.bits + other.width.bits ≤ 32 }
        ensures width { result.width.bits ≡ self.width.bits + other.width.bits }
        ensures number { result.number ≡ joined other.width.bits self.number other.number }
    {
        let width = Width::new(self.width.bits() + other.width.bits()).unwrap();
        BitVector::of(width, (self.number << other.width.bits()) + other.number)
    }
}

impl Pair {
    pub(crate) fn and(self) -> BitVector
        ensures width { result.width ≡ self.width }
        ensures number { result.number ≡ bit_and self.left self.right }
    {
        BitVector::of(self.width, self.left & self.right)
    }

    #[tactic(auto, using(std::proofs::lemmas::Nat::or_lt))]
    pub(crate) fn or(self) -> BitVector
        ensures width { result.width ≡ self.width }
        ensures number { result.number ≡ bit_or self.left self.right }
    {
        BitVector::of(self.width, self.left | self.right)
    }

    #[tactic(auto, using(std::proofs::lemmas::Nat::xor_lt))]
    pub(crate) fn xor(self) -> BitVector
        ensures width { result.width ≡ self.width }
        ensures number { result.number ≡ bit_xor self.left self.right }
    {
        BitVector::of(self.width, self.left ^ self.right)
    }
}
