// What an order is told of its operands.
ghost use Rattle.std.specs.Prelude.{◌≡◌};
ghost use Rattle.rows.specs.Operands.{with_third};

use target::row::Sort;

// What is known of a number: it is from `least` to `most`.
#[derive(Clone, Copy, PartialEq, Eq, Debug)]
pub struct Range {
    pub least: u64,
    pub most: u64,
}

// The operands of an order. Where an operator has fewer than three, what is said of the others is not looked at.
#[derive(Clone, Copy, PartialEq, Eq, Debug)]
pub struct Operands {
    // their images; of bvor and bvxor the third is the and-unknown
    pub a: usize,
    pub b: usize,
    pub c: usize,
    // the widths of the first and the second, a truth value being one bit wide
    pub k: u32,
    pub j: u32,
    // the sort of the branches of ite
    pub sort: Sort,
    // what is known of the numbers of the first and the second
    pub left: Range,
    pub right: Range,
}

impl Operands {
    // The same operands with another image of the third.
    pub(crate) fn with_third(self, c: usize) -> Operands
        ensures { result ≡ with_third self c }
    {
        Operands { c, ..self }
    }
}
