// A line: an operator and its operands.
ghost use Rattle.std.specs.Prelude.{◌≡◌, List, MatchOption};
ghost use Rattle.operators.specs.Names.{operator_named};
ghost use Rattle.operators.specs.Line.{first_word, rest_of, operand_or_none, extract_in, operator_in, operands_in, value_in, line_value};
ghost use Rattle.operators.specs.Spelling.{spelling, value_at, IsWritable};

use source::apply::apply;
use source::operator::Operator;
use source::value::Value;

// A match, and no `parse` of an operator: extract takes two numbers more, so a name alone does not give it.
fn operator(name: &str) -> Option<Operator>
    ensures { result ≡ operator_named name.now }
{
    match name {
        "bvnot" => Some(Operator::BvNot),
        "bvneg" => Some(Operator::BvNeg),
        "bvadd" => Some(Operator::BvAdd),
        "bvsub" => Some(Operator::BvSub),
        "bvmul" => Some(Operator::BvMul),
        "bvudiv" => Some(Operator::BvUdiv),
        "bvurem" => Some(Operator::BvUrem),
        "concat" => Some(Operator::Concat),
        "bvand" => Some(Operator::BvAnd),
        "bvor" => Some(Operator::BvOr),
        "bvxor" => Some(Operator::BvXor),
        "bvlshr" => Some(Operator::BvLshr),
        "bvshl" => Some(Operator::BvShl),
        "bvult" => Some(Operator::BvUlt),
        "bvule" => Some(Operator::BvUle),
        "bvugt" => Some(Operator::BvUgt),
        "bvuge" => Some(Operator::BvUge),
        "bvslt" => Some(Operator::BvSlt),
        "bvsle" => Some(Operator::BvSle),
        "bvsgt" => Some(Operator::BvSgt),
        "bvsge" => Some(Operator::BvSge),
        "=" => Some(Operator::Equal),
        "not" => Some(Operator::Not),
        "and" => Some(Operator::And),
        "or" => Some(Operator::Or),
        "ite" => Some(Operator::Ite),
        "=>" => Some(Operator::Implies),
        _ => None,
    }
}

// The first word, and the rest of the line.
fn word(line: &str) -> (&str, &str)
    ensures first { result.0.now ≡ first_word line.now }
    ensures rest { result.1.now ≡ rest_of line.now }
{
    line.split_once(' ').unwrap_or((line, ""))
}

// The operator at the line's start, and the rest of the line.
#[tactic(auto, using(source::proofs::Parsing::number_in_parse))]
fn head(line: &str) -> Option<(Operator, &str)>
    ensures { MatchOption result (operator_in line.now ≡ None)
        (λ x. (operator_in line.now ≡ Some x.0) × (x.1.now ≡ operands_in line.now)) }
{
    let (name, rest) = word(line);
    if name == "extract" {
        let (upper, after) = word(rest);
        let (lower, operands) = word(after);
        let op = Operator::Extract(upper.parse().ok()?, lower.parse().ok()?);
        Some((op, operands))
    } else {
        Some((operator(name)?, rest))
    }
}

// An operand that the line does not have counts as false: no operator looks at it.
fn operand_or_none(word: &str) -> Option<Value>
    ensures { result ≡ operand_or_none word.now }
{
    if word.is_empty() {
        Some(Value::Bool(false))
    } else {
        word.parse().ok()
    }
}

// The value of an operator at the operands of a text: two words, and all that stands behind them.
fn value_in(op: Operator, text: &str) -> Option<Value>
    ensures { result ≡ value_in op text.now }
{
    let (first, rest) = word(text);
    let (second, third) = word(rest);
    Some(apply(
        op,
        operand_or_none(first)?,
        operand_or_none(second)?,
        operand_or_none(third)?,
    ))
}

// The value of a line; a line of no such form has none.
pub fn value(line: &str) -> Option<Value>
    ensures reads { result ≡ line_value line.now }

    // A line that spells an operator and its operands gives its value there.
    ensures spelled { (op : Operator) (operands : List Value) → IsWritable op operands → line.now ≡ spelling op operands
        → result ≡ Some (value_at op operands) }
{
    let (op, operands) = head(line)?;
    value_in(op, operands)
}
