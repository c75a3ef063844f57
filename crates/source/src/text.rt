// The text of values: true, false, or K:N, the number N in K bits, both in decimal.
ghost use Rattle.std.specs.Prelude.{◌≡◌, Some};
ghost use Rattle.std.specs.Result.{result_ok};
ghost use Rattle.source.specs.Text.{value_text, value_in_text, bits_in};

use crate::value::Value;
use std::fmt;
use std::str::FromStr;

impl fmt::Display for Value {
    ghost output = { λ v. Some (value_text v) };

    fn fmt<W: fmt::Write>(&self, f: &mut fmt::Formatter<W>) -> fmt::Result {
        match self {
            Value::Bool(b) => write!(f, "{b}"),
            Value::Bits(k, n) => write!(f, "{k}:{n}"),
        }
    }
}

// A text that spells no value.
#[derive(Clone, Copy, PartialEq, Eq, Debug)]
pub struct NoValue;

impl FromStr for Value {
    type Err = NoValue;

    ghost from_str_gives = { λ text r. result_ok r ≡ value_in_text text };

    fn from_str(text: &str) -> Result<Value, NoValue> {
        let truth = text.parse().ok().map(Value::Bool);
        truth.or_else(|| bits(text)).ok_or(NoValue)
    }
}

// K:N, the number N in K bits.
#[tactic(auto, using(crate::proofs::Parsing::number_in_parse))]
fn bits(text: &str) -> Option<Value>
    ensures { result ≡ bits_in text.now }
{
    let (k, n) = text.split_once(':')?;
    Some(Value::Bits(k.parse().ok()?, n.parse().ok()?))
}
