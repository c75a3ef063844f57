// Tests on sorts.
ghost use Rattle.std.specs.Prelude.{◌≡◌};
ghost use Rattle.source.specs.Sorts.{is_bool, is_bits, width_of, alike};

use crate::order::Sort;

impl Sort {
    pub fn is_bool(self) -> bool
        ensures { result ≡ is_bool self }
    {
        matches!(self, Sort::Bool)
    }

    pub fn is_bits(self) -> bool
        ensures { result ≡ is_bits self }
    {
        matches!(self, Sort::Bits(_))
    }

    // The width of bits; a truth value counts as one bit wide.
    pub fn width(self) -> u32
        ensures { result ≡ width_of self }
    {
        match self {
            Sort::Bool => 1,
            Sort::Bits(k) => k,
        }
    }

    // Whether the two are one sort. A name for `==`, since what operators take is stated by it.
    pub fn alike(self, other: Sort) -> bool
        ensures { result ≡ alike self other }
    {
        self == other
    }
}
