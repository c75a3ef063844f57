// The reserved words: no register may bear one.
ghost use Rattle.std.specs.Prelude.{◌≡◌};
ghost use Rattle.script.specs.Words.{reserved_words, among};

// An operator of the terms. A record, though it has but a name yet: what else belongs to an operator goes into the same
// constant table.
#[derive(Clone, Copy)]
pub struct Operator {
    pub name: &'static [u8],
}

pub const OPERATORS: [Operator; 28] = [
    Operator { name: b"bvnot" },
    Operator { name: b"bvneg" },
    Operator { name: b"bvadd" },
    Operator { name: b"bvsub" },
    Operator { name: b"bvmul" },
    Operator { name: b"bvudiv" },
    Operator { name: b"bvurem" },
    Operator { name: b"extract" },
    Operator { name: b"concat" },
    Operator { name: b"bvand" },
    Operator { name: b"bvor" },
    Operator { name: b"bvxor" },
    Operator { name: b"bvlshr" },
    Operator { name: b"bvshl" },
    Operator { name: b"bvult" },
    Operator { name: b"bvule" },
    Operator { name: b"bvugt" },
    Operator { name: b"bvuge" },
    Operator { name: b"bvslt" },
    Operator { name: b"bvsle" },
    Operator { name: b"bvsgt" },
    Operator { name: b"bvsge" },
    Operator { name: b"=" },
    Operator { name: b"not" },
    Operator { name: b"and" },
    Operator { name: b"or" },
    Operator { name: b"ite" },
    Operator { name: b"=>" },
];

// The commands, and the words that have a meaning of their own in a term.
pub const WORDS: [&'static [u8]; 9] = [
    b"set-logic",
    b"declare-const",
    b"declare-fun",
    b"assert",
    b"check-sat",
    b"_",
    b"let",
    b"true",
    b"false",
];

// Whether a text is one of the reserved words, whole.
pub fn is_reserved(text: &[u8]) -> bool
    ensures { result ≡ among reserved_words text.now }
{
    OPERATORS.iter().any(|o| o.name == text) || WORDS.iter().any(|w| *w == text)
}
