// The tokens of a script, one at a time.
ghost use Rattle.std.specs.Prelude.{◌≡◌, ◌+◌, ◌<◌, length, slice_index, IfOk};
ghost use Rattle.script.specs.Tokens.{is_constant, atom_token, token_at, shape, said};
ghost use Rattle.script.specs.Found.{Numbered, Stands};

use crate::bytes::skip;
use crate::numeral::is_numeral;
use crate::token::{Class, Lexed, Span, Token};
use refusal::{Cause, Refusal};

// Whether an atom is # with this letter and at least one digit of a class.
fn is_constant(text: &[u8], letter: u8, class: Class) -> bool
    ensures { result ≡ is_constant letter class text.now }
{
    text.len() > 2 && text[1] == letter && class.has_all(&text[2..])
}

// The token that an atom is, if it is one: its first byte decides.
fn atom<'a>(text: &'a [u8], span: Span) -> Result<Lexed<'a>, Refusal>
    requires some { 0 < length text.now }
    requires span { span.after ≡ span.place + length text.now }
    ensures value { said result ≡ atom_token (slice_index text.now 0) text.now span.place }
    ensures bound { IfOk result (λ l. l.span ≡ span) }
    ensures number { IfOk result (λ l. Numbered (shape l.token)) }
{
    let token = match text[0] {
        b'0'..=b'9' if is_numeral(text) => Token::Numeral(text),
        b'#' if is_constant(text, b'b', Class::Bit) => Token::Binary(text),
        b'#' if is_constant(text, b'x', Class::HexDigit) => Token::Hex(text),
        b'0'..=b'9' | b'#' => return Err(Cause::Grammar.at(span.place)),
        _ => Token::Name(text),
    };
    Ok(Lexed { token, span })
}

// The first token from `from` on, blanks and comments passed over. A malformed atom, or a byte that
// begins no token, is text off the grammar, told at its first byte.
pub fn next<'a>(script: &'a [u8], from: usize) -> Result<Lexed<'a>, Refusal>
    ensures value { said result ≡ token_at script.now from }
    ensures bound { IfOk result (λ l. Stands from (length script.now) l) }
    ensures number { IfOk result (λ l. Numbered (shape l.token)) }
{
    let place = skip(script, from);
    if place >= script.len() {
        return Ok(Lexed::new(Token::End, place, place));
    }
    match script[place] {
        b'(' => Ok(Lexed::new(Token::Open, place, place + 1)),
        b')' => Ok(Lexed::new(Token::Close, place, place + 1)),
        b if Class::Atom.has(b) => {
            let after = place + Class::Atom.run(&script[place..]);
            atom(&script[place..after], Span { place, after })
        }
        _ => Err(Cause::Grammar.at(place)),
    }
}
