// Orders and the source rows they make.
use crate::operator::Operator;

// The sort of a source row: a truth value, or bits of a width.
#[derive(Clone, Copy, PartialEq, Eq, Debug)]
pub enum Sort {
    Bool,
    Bits(u32),
}

// What an order asks for. Widths, numbers and rows may be any here: a workbook refuses what it cannot take.
#[derive(Clone, Copy, PartialEq, Eq, Debug)]
pub enum Act {
    // a register of this width
    Declare(u32),
    // a constant: its width and its number
    Constant(u32, u64),
    // true or false
    Truth(bool),
    // an operator on source rows; of the three as many count as the operator has operands
    Apply(Operator, usize, usize, usize),
    // that a source row is true; it makes no row
    Require(usize),
}

// An order of a plain list, with the place of its first token in the script.
#[derive(Clone, Copy, PartialEq, Eq, Debug)]
pub struct Order {
    pub place: usize,
    pub act: Act,
}

// A row of the source: what was ordered, its sort, and its image, the target row that has its value.
#[derive(Clone, Copy, PartialEq, Eq, Debug)]
pub struct Source {
    pub act: Act,
    pub sort: Sort,
    pub image: usize,
}
