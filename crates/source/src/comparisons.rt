// The signed order of bit-vectors.
ghost use Rattle.std.specs.Prelude.{◌≡◌};
ghost use Rattle.std.specs.Ordering.{int_cmp};
ghost use Rattle.source.specs.Numbers.{signed};

use crate::bit_vector::BitVector;
use crate::pair::Pair;
use std::cmp::Ordering;

impl Pair {
    pub(crate) fn signed_cmp(self) -> Ordering
        ensures { result ≡ int_cmp (signed self.width.bits self.left) (signed self.width.bits self.right) }
    {
        let left = BitVector::of(self.width, self.left);
        let right = BitVector::of(self.width, self.right);
        left.signed().cmp(&right.signed())
    }
}
