// Numerals and the numbers they spell.
ghost use Rattle.std.specs.Prelude.{◌≡◌};
ghost use Rattle.script.specs.Tokens.{is_numeral};
ghost use Rattle.script.specs.Found.{number_of};

use crate::token::Class;

// The number that decimal digits spell, if 32 bits hold it. However long the text, the first number that
// is too large decides: digits never make a number smaller. (No `parse`: the bytes of a token are no `str`, and `parse`
// would take a sign.)
pub fn number(text: &[u8]) -> Option<u32>
    ensures { result ≡ number_of text.now }
{
    let mut value: u32 = 0;
    for d in text {
        value = value
            .checked_mul(10)?
            .checked_add(u32::from(d.saturating_sub(b'0')))?;
    }
    Some(value)
}

// Whether an atom is a numeral: digits, no zero in front of others, and a number that fits.
pub fn is_numeral(text: &[u8]) -> bool
    ensures { result ≡ is_numeral text.now }
{
    Class::Digit.has_all(text) && (text.len() < 2 || text[0] != b'0') && number(text).is_some()
}
