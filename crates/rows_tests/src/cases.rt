// What is tried.
ghost use Rattle.std.specs.Prelude.{◌≡◌, true};
ghost use Rattle.rows_tests.specs.Tried.{largest, number_of, between, left_tried, right_tried, tried, is_tried, Bounds};

use rows::operands::{Operands, Range};
use source::operator::Operator;
use target::row::Sort;

pub const OPERATORS: [Operator; 32] = [
    Operator::BvNot,
    Operator::BvNeg,
    Operator::BvAdd,
    Operator::BvSub,
    Operator::BvMul,
    Operator::BvUdiv,
    Operator::BvUrem,
    Operator::Extract(0, 0),
    Operator::Extract(2, 1),
    Operator::Extract(3, 0),
    Operator::Extract(31, 16),
    Operator::Extract(0, 1),
    Operator::Concat,
    Operator::BvAnd,
    Operator::BvOr,
    Operator::BvXor,
    Operator::BvLshr,
    Operator::BvShl,
    Operator::BvUlt,
    Operator::BvUle,
    Operator::BvUgt,
    Operator::BvUge,
    Operator::BvSlt,
    Operator::BvSle,
    Operator::BvSgt,
    Operator::BvSge,
    Operator::Equal,
    Operator::Not,
    Operator::And,
    Operator::Or,
    Operator::Ite,
    Operator::Implies,
];

// What is known of the numbers of two operands.
#[derive(Clone, Copy, PartialEq, Eq, Debug)]
pub enum Known {
    // nothing
    Nothing,
    // both are 1
    Ones,
    // the first is the largest number
    Largest,
    // the second is 0
    Zero,
}

pub const KNOWN: [Known; 4] = [Known::Nothing, Known::Ones, Known::Largest, Known::Zero];

// The number under which it is printed.
impl From<Known> for u8 {
    ghost from_gives = { λ known n. n ≡ number_of known };

    fn from(known: Known) -> u8 {
        match known {
            Known::Nothing => 0,
            Known::Ones => 1,
            Known::Largest => 2,
            Known::Zero => 3,
        }
    }
}

fn range(least: u64, most: u64) -> Range
    ensures { result ≡ between least most }
{
    Range { least, most }
}

impl Known {
    // What that is for the first operand, of numbers up to `most`.
    fn left(self, most: u64) -> Range
        ensures { result ≡ left_tried most self }
    {
        match self {
            Known::Nothing | Known::Zero => range(0, most),
            Known::Ones => range(1, 1),
            Known::Largest => range(most, most),
        }
    }

    // And for the second.
    fn right(self, most: u64) -> Range
        ensures { result ≡ right_tried most self }
    {
        match self {
            Known::Nothing | Known::Largest => range(0, most),
            Known::Ones => range(1, 1),
            Known::Zero => range(0, 0),
        }
    }
}

// The largest number of k bits; a width that is not tried is taken for 32.
fn top(k: u32) -> u64
    ensures { result ≡ largest k }
{
    match k {
        1 => 1,
        4 => 15,
        _ => u64::from(u32::MAX),
    }
}

// An operator at a width, with what is known of its operands.
#[derive(Clone, Copy, PartialEq, Eq, Debug)]
pub struct Case {
    pub op: Operator,
    pub k: u32,
    pub known: Known,
}

impl Case {
    // Two operands of k bits, the rows 1 and 2, and the row 3.
    pub fn operands(self) -> Operands
        ensures operands { result ≡ tried self.k self.known }
        ensures bounds { is_tried self.k ≡ true → Bounds self.k result.left × Bounds self.k result.right }
    {
        let Case { k, known, .. } = self;
        Operands {
            a: 1,
            b: 2,
            c: 3,
            k,
            j: k,
            sort: if known == Known::Nothing {
                Sort::Int
            } else {
                Sort::Bool
            },
            left: known.left(top(k)),
            right: known.right(top(k)),
        }
    }
}
