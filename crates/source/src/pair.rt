// Two numbers of one width.
ghost use Rattle.std.specs.Prelude.{◌≡◌, ◌^◌, ◌<◌};
ghost use Rattle.source.specs.Operands as operands;
ghost use Rattle.source.specs.Values.{bits_of, number_of};

use crate::value::Value;
use crate::width::Width;

// Both lie below 2^k, where k is the width. Numbers, and no two bit-vectors, since they share the width.
#[derive(Clone, Copy)]
pub(crate) struct Pair {
    pub(crate) width: Width,
    pub(crate) left: u64,
    pub(crate) right: u64,
    ghost left_below: { left < 2 ^ width.bits },
    ghost right_below: { right < 2 ^ width.bits },
}

impl Pair {
    // Two values that are numbers of one width, side by side as `apply` has them.
    pub(crate) fn of(a: Value, b: Value) -> Pair
        requires { operands.Pair a b }
        ensures width { result.width.bits ≡ bits_of a }
        ensures left { result.left ≡ number_of a }
        ensures right { result.right ≡ number_of b }
    {
        let width = Width::new(a.bits()).unwrap();
        Pair {
            width,
            left: a.number(),
            right: b.number(),
        }
    }
}
