// Worked cases: values and rows that were worked out by hand, shown of the definitions that the contracts use.
//
// Definitions are what a reader has to believe. These cases hold them to numbers from outside.
#![tactic(auto)]

ghost use Rattle.std.specs.Prelude.{◌≡◌};
ghost use Rattle.cases.specs.Cases.{Worked};

// Answers 0: what it is for is the statement that it ensures.
pub fn cases_stand() -> u8
    ensures answer { result ≡ 0 }
    ensures cases { Worked }
{
    0
}
