// Shifts of bit-vectors of width k. No bit is left after k places or more. Both go as far as `places`; only to the left
// do bits roll over.
ghost use Rattle.std.specs.Prelude.{◌≡◌, min};
ghost use Rattle.source.specs.Numbers.{shifted_right, shifted_left};

use crate::bit_vector::BitVector;
use crate::pair::Pair;

impl Pair {
    // The places that a shift goes: after k places, more make no difference.
    fn places(self) -> u64
        ensures { result ≡ min self.right self.width.bits }
    {
        self.right.min(u64::from(self.width.bits()))
    }

    #[tactic(auto, using(crate::proofs::Shifting::right_capped))]
    pub(crate) fn shift_right(self) -> BitVector
        ensures width { result.width ≡ self.width }
        ensures number { result.number ≡ shifted_right self.left self.right }
    {
        BitVector::of(self.width, self.left >> self.places())
    }

    #[tactic(auto, using(crate::proofs::Shifting::left_in_64))]
    pub(crate) fn shift_left(self) -> BitVector
        ensures width { result.width ≡ self.width }
        ensures number { result.number ≡ shifted_left self.width.bits self.left self.right }
    {
        BitVector::rolled(self.width, self.left << self.places())
    }
}
