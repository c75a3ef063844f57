// Which operands rows can be made for.
ghost use Rattle.std.specs.Prelude.{◌≡◌};
ghost use Rattle.rows.specs.Counts.{has_and};
ghost use Rattle.rows.specs.Limits.{usable};

use crate::operands::Operands;
use source::operator::Operator;
use source::order::Sort;
use source::width::Width;

// Whether rows can be made for these operands: the first operand's width is from 1 to 32, the bounds of both are
// numbers of 32 bits, and extract's bits and a concatenation lie within their limits. (Operator and operands stand side by side: the call takes every
// pair of them, and an `Application` is one that was tested.)
pub fn is_usable(op: Operator, o: Operands) -> bool
    ensures { result ≡ usable op o }
{
    let limit = u64::from(u32::MAX);
    Width::new(o.k).is_some()
        && o.left.most <= limit
        && o.right.most <= limit
        && op.in_bounds(Sort::Bits(o.k), Sort::Bits(o.j))
}

// Whether an operator has an and-unknown.
pub fn has_and(op: Operator) -> bool
    ensures { result ≡ has_and op }
{
    matches!(op, Operator::BvAnd | Operator::BvOr | Operator::BvXor)
}
