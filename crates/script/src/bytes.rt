// Bytes: their classes, and how far runs, blanks and comments go.
ghost use Rattle.std.specs.Prelude.{◌≡◌, ◌+◌, ◌≤◌, max, false, length, drop};
ghost use Rattle.std.specs.List.{prefix_len};
ghost use Rattle.script.specs.Bytes.{line_end, blank, within, all, skipped};
ghost use Rattle.script.specs.Reading.{text_in};

use crate::token::Class;

fn is_line_end(b: u8) -> bool
    ensures { result ≡ line_end b }
{
    b == b'\r' || b == b'\n'
}

fn is_blank(b: u8) -> bool
    ensures { result ≡ blank b }
{
    b == b' ' || b == b'\t' || is_line_end(b)
}

impl Class {
    // Whether a byte is of this class.
    pub(crate) fn has(self, b: u8) -> bool
        ensures { result ≡ within self b }
    {
        match self {
            Class::Atom => matches!(b, 33..=126) && !matches!(b, b'(' | b')' | b';'),
            Class::Digit => b.is_ascii_digit(),
            Class::Bit => matches!(b, b'0' | b'1'),
            Class::HexDigit => b.is_ascii_hexdigit(),
        }
    }

    // Whether all bytes of a text are of this class.
    pub(crate) fn has_all(self, text: &[u8]) -> bool
        ensures { result ≡ all self text.now }
    {
        text.iter().all(|b| self.has(*b))
    }

    // How many bytes at the front of a text are of this class.
    pub(crate) fn run(self, text: &[u8]) -> usize
        ensures { result ≡ prefix_len (within self) text.now }
    {
        text.iter().take_while(|b| self.has(**b)).count()
    }
}

// Where the first byte that is no blank and in no comment stands, from `from` on.
// The loop runs over places, since a place is what is answered; a chain over `enumerate` and `skip` wanted six answers
// (tried).
pub(crate) fn skip(script: &[u8], from: usize) -> usize
    ensures value { result ≡ from + skipped false (drop from script.now) }
    ensures bound { result ≤ max from (length script.now) }
{
    let mut comment = false;
    for at in from..script.len() {
        let b = script[at];
        if comment {
            comment = !is_line_end(b);
        } else if b == b';' {
            comment = true;
        } else if !is_blank(b) {
            return at;
        }
    }
    from.max(script.len())
}

// The bytes of a script from one place to another; those past its end are left out.
pub(crate) fn between<'a>(script: &'a [u8], from: usize, to: usize) -> &'a [u8]
    ensures { result.now ≡ text_in script.now from to }
{
    let end = to.min(script.len());
    &script[from.min(end)..end]
}
