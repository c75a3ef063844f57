// The values of source rows.
ghost use Rattle.std.specs.Prelude.{◌≡◌};
ghost use Rattle.source.specs.Values.{sort_of, is_value, number_of, truth_of, bits_of};
ghost use Rattle.source.specs.Operands.{Number};
ghost use Rattle.source.specs.declared.value.Value.TheVariants.{Bits};

use crate::bit_vector::BitVector;
use crate::order::Sort;

// A truth value, or a number with its width. Numbers of a width k lie below 2^k; what an operator gives for
// others is fixed too, so that every function of values is total.
#[derive(Clone, Copy, PartialEq, Eq, Debug)]
pub enum Value {
    Bool(bool),
    Bits(u32, u64),
}

impl Value {
    pub fn sort(self) -> Sort
        ensures { result ≡ sort_of self }
    {
        match self {
            Value::Bool(_) => Sort::Bool,
            Value::Bits(k, _) => Sort::Bits(k),
        }
    }

    // Whether it is a truth value, or a number of its width, which is from 1 to 32.
    pub fn is_value(self) -> bool
        ensures { result ≡ is_value self }
    {
        match self {
            Value::Bool(_) => true,
            Value::Bits(k, n) => BitVector::new(k, n).is_some(),
        }
    }

    // The number; a truth value is 0 or 1.
    pub fn number(self) -> u64
        ensures { result ≡ number_of self }
    {
        match self {
            Value::Bool(b) => u64::from(b),
            Value::Bits(_, n) => n,
        }
    }

    // The truth; a number has none and counts as false.
    pub fn truth(self) -> bool
        ensures { result ≡ truth_of self }
    {
        matches!(self, Value::Bool(true))
    }

    // The width; a truth value counts as one bit wide.
    pub fn bits(self) -> u32
        ensures { result ≡ bits_of self }
    {
        match self {
            Value::Bool(_) => 1,
            Value::Bits(k, _) => k,
        }
    }

    // The bit-vector that it is; a truth value is one of one bit.
    pub(crate) fn bit_vector(self) -> BitVector
        requires { Number self }
        ensures width { result.width.bits ≡ bits_of self }
        ensures number { result.number ≡ number_of self }
    {
        BitVector::new(self.bits(), self.number()).unwrap()
    }
}

impl From<BitVector> for Value {
    ghost from_gives = { λ v r. r ≡ Bits v.width.bits v.number };

    fn from(v: BitVector) -> Value {
        Value::Bits(v.width.bits(), v.number)
    }
}
