// The tokens of a script.
ghost use Rattle.std.specs.Prelude.{◌≡◌};

// The classes of bytes that runs are made of.
#[derive(Clone, Copy, PartialEq, Eq, Debug)]
pub enum Class {
    // a byte of an atom: 33 to 126 without ( ) ;
    Atom,
    Digit,
    Bit,
    HexDigit,
}

// A token. Where it has a text, that is the part of the script it was read from.
#[derive(Clone, Copy, PartialEq, Eq, Debug)]
pub enum Token<'a> {
    Open,
    Close,
    Name(&'a [u8]),
    Numeral(&'a [u8]),
    // with its #b
    Binary(&'a [u8]),
    // with its #x
    Hex(&'a [u8]),
    // the end of the script
    End,
}

// The place of a token's first byte, and the place after its last one.
#[derive(Clone, Copy, PartialEq, Eq, Debug)]
pub struct Span {
    pub place: usize,
    pub after: usize,
}

// A token, and where it stands.
#[derive(Clone, Copy, PartialEq, Eq, Debug)]
pub struct Lexed<'a> {
    pub token: Token<'a>,
    pub span: Span,
}

impl<'a> Lexed<'a> {
    // The token that stands from one place to another.
    pub(crate) fn new(token: Token<'a>, place: usize, after: usize) -> Self
        ensures { result ≡ record { token = token.entry; span = record { place = place; after = after } } }
    {
        Lexed {
            token,
            span: Span { place, after },
        }
    }
}
