// The value of an operator.
ghost use Rattle.std.specs.Prelude.{◌≡◌, true};
ghost use Rattle.source.specs.Sorts.{result_sort};
ghost use Rattle.source.specs.Values.{sort_of, given, taken, value_of};
ghost use Rattle.source.specs.Operands.{IsOf};

use crate::operator::Operator;
use crate::pair::Pair;
use crate::value::Value;

// The value of an operator at these operands; one that it does not have is not looked at. Operands that it
// does not take give false. (Three operands side by side: a struct would be built at each call, and taken apart in it.)
pub fn apply(op: Operator, a: Value, b: Value, c: Value) -> Value
    ensures value { result ≡ value_of op a b c }
    ensures closed { taken op a b c ≡ true → IsOf result (result_sort op (sort_of a) (sort_of b) (sort_of c)) }
{
    if takes(op, a, b, c) {
        give(op, a, b, c)
    } else {
        Value::Bool(false)
    }
}

// Whether the operands are values of the right sorts, within bounds.
fn takes(op: Operator, a: Value, b: Value, c: Value) -> bool
    ensures { result ≡ taken op a b c }
{
    let count = op.operands();
    let values = a.is_value() && (count <= 1 || b.is_value()) && (count <= 2 || c.is_value());
    values && op.fits(a.sort(), b.sort(), c.sort()) && op.in_bounds(a.sort(), b.sort())
}

// What an operator gives for operands that it takes: one arm for each operator, since each has a value
// of its own.
fn give(op: Operator, a: Value, b: Value, c: Value) -> Value
    requires { taken op a b c ≡ true }
    ensures { result ≡ given op a b c }
{
    match op {
        Operator::BvNot => a.bit_vector().complement().into(),
        Operator::BvNeg => a.bit_vector().negative().into(),
        Operator::Extract(upper, lower) => a.bit_vector().extract(upper, lower).into(),
        Operator::Concat => a.bit_vector().concat(b.bit_vector()).into(),
        Operator::BvAdd => Pair::of(a, b).sum().into(),
        Operator::BvSub => Pair::of(a, b).difference().into(),
        Operator::BvMul => Pair::of(a, b).product().into(),
        Operator::BvUdiv => Pair::of(a, b).quotient().into(),
        Operator::BvUrem => Pair::of(a, b).remainder().into(),
        Operator::BvAnd => Pair::of(a, b).and().into(),
        Operator::BvOr => Pair::of(a, b).or().into(),
        Operator::BvXor => Pair::of(a, b).xor().into(),
        Operator::BvLshr => Pair::of(a, b).shift_right().into(),
        Operator::BvShl => Pair::of(a, b).shift_left().into(),
        Operator::BvUlt => Value::Bool(a.number() < b.number()),
        Operator::BvUle => Value::Bool(a.number() <= b.number()),
        Operator::BvUgt => Value::Bool(a.number() > b.number()),
        Operator::BvUge => Value::Bool(a.number() >= b.number()),
        Operator::BvSlt => Value::Bool(Pair::of(a, b).signed_cmp().is_lt()),
        Operator::BvSle => Value::Bool(Pair::of(a, b).signed_cmp().is_le()),
        Operator::BvSgt => Value::Bool(Pair::of(a, b).signed_cmp().is_gt()),
        Operator::BvSge => Value::Bool(Pair::of(a, b).signed_cmp().is_ge()),
        Operator::Equal => Value::Bool(a.number() == b.number()),
        Operator::Not => Value::Bool(!a.truth()),
        Operator::And => Value::Bool(a.truth() && b.truth()),
        Operator::Or => Value::Bool(a.truth() || b.truth()),
        Operator::Ite => if a.truth() { b } else { c },
        Operator::Implies => Value::Bool(!a.truth() || b.truth()),
    }
}
