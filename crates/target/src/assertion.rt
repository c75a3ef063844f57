// The assertions of the target.
ghost use Rattle.std.specs.Prelude.{◌≡◌};
ghost use Rattle.target.specs.Kinds.{kind_number};

// Why a row is asserted.
#[derive(Clone, Copy, PartialEq, Eq, Debug)]
pub enum Kind {
    // an unknown lies within its width
    Range,
    // an and-scheme's answer: an unknown is the bitwise and of two rows
    Lemma,
    // a condition of the script
    Requirement,
}

// A Boolean row that has to be true, the source row it was made for, and why.
#[derive(Clone, Copy, PartialEq, Eq, Debug)]
pub struct Assertion {
    pub row: usize,
    pub source: usize,
    pub kind: Kind,
}

impl From<Kind> for u8 {
    ghost from_gives = { λ kind n. n ≡ kind_number kind };

    fn from(kind: Kind) -> u8 {
        match kind {
            Kind::Range => 1,
            Kind::Lemma => 2,
            Kind::Requirement => 3,
        }
    }
}
