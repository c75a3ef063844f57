// Bit-vectors: a number with its width.
ghost use Rattle.std.specs.Prelude.{◌≡◌, ◌%◌, ◌^◌, ◌<◌, true, false, MatchOption};
ghost use Rattle.source.specs.Numbers.{signed};
ghost use Rattle.source.specs.Values.{is_value};
ghost use Rattle.source.specs.declared.value.Value.TheVariants.{Bits};

use crate::width::Width;

// The bits of a number that lies below 2^k, where k is the width.
#[derive(Clone, Copy)]
pub(crate) struct BitVector {
    pub(crate) width: Width,
    pub(crate) number: u64,
    ghost below: { number < 2 ^ width.bits },
}

impl BitVector {
    // A number of so many bits, if there is one.
    pub(crate) fn new(bits: u32, number: u64) -> Option<BitVector>
        ensures { MatchOption result (is_value (Bits bits number) ≡ false)
            (λ v. (is_value (Bits bits number) ≡ true) × ((v.width.bits ≡ bits) × (v.number ≡ number))) }
    {
        let width = Width::new(bits)?;
        if number < 1u64 << bits {
            Some(BitVector { width, number })
        } else {
            None
        }
    }

    // A number below 2^k, at its width.
    pub(crate) fn of(width: Width, number: u64) -> BitVector
        requires { number < 2 ^ width.bits }
        ensures width { result.width ≡ width }
        ensures number { result.number ≡ number }
    {
        BitVector { width, number }
    }

    // A number modulo 2^k.
    pub(crate) fn rolled(width: Width, number: u64) -> BitVector
        ensures width { result.width ≡ width }
        ensures number { result.number ≡ number % 2 ^ width.bits }
    {
        BitVector::of(width, number % (1u64 << width.bits()))
    }

    // The two's-complement number: the top bit counts as -2^(k - 1).
    pub(crate) fn signed(self) -> i64
        ensures { result ≡ signed self.width.bits self.number }
    {
        let number = self.number.cast_signed();
        if self.number < 1u64 << (self.width.bits() - 1) {
            number
        } else {
            number - (1i64 << self.width.bits())
        }
    }
}
