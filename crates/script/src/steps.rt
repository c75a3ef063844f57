// One step of the reader: the next token, where it is one that the grammar wants there.
ghost use Rattle.std.specs.Prelude.{◌≡◌, Bool, is_some, Option};
ghost use Rattle.script.specs.Tokens.{Tok, token_at, shape};
ghost use Rattle.script.specs.Found.{Numbered};
ghost use Rattle.script.specs.Steps.{is_open, is_close, is_end, is_name, is_word, number_in, keyword_of, keyword_in, accept, pick, and_then, Tells, passed};

use crate::command::{Form, Keyword};
use crate::lexer::next;
use crate::numeral;
use crate::token::{Span, Token};
use refusal::{Cause, Refusal};

const CHECK_SAT: &'static [u8] = b"check-sat";

const DECLARE_CONST: &'static [u8] = b"declare-const";

const DECLARE_FUN: &'static [u8] = b"declare-fun";

// A script, and the place from which it is to be read on. A step that refuses leaves the place as it was.
// Each says that the script is the same, since behind a `&mut` only a clause does.
#[derive(Debug, Drop)]
pub(crate) struct Reader<'a> {
    pub(crate) script: &'a [u8],
    pub(crate) pos: usize,
}

// The number of a numeral.
fn number_in(token: Token) -> Option<u32>
    requires { Numbered (shape token) }
    ensures { result ≡ number_in (shape token.entry) }
{
    match token {
        Token::Numeral(text) => numeral::number(text),
        _ => None,
    }
}

// What a command's word asks for.
// Three `if`s and no `match`: on byte strings it leaves goals about single bytes that do not prove (tried).
fn keyword_of(text: &[u8]) -> Option<Keyword>
    ensures { result ≡ keyword_of text.now }
{
    if text == CHECK_SAT {
        return Some(Keyword::CheckSat);
    }
    if text == DECLARE_CONST {
        return Some(Keyword::Declare(Form::Constant));
    }
    if text == DECLARE_FUN {
        return Some(Keyword::Declare(Form::Function));
    }
    None
}

fn keyword_in(token: Token) -> Option<Keyword>
    ensures { result ≡ keyword_in (shape token.entry) }
{
    match token {
        Token::Name(text) => keyword_of(text),
        _ => None,
    }
}

impl<'a> Reader<'a> {
    // What the next token gives, and where it stands; if nothing, text off the grammar, told at that token.
    fn pick<T, F: FnOnce(Token<'a>) -> Option<T>>(
        &mut self,
        wanted: F,
    ) -> Result<(T, Span), Refusal>
        requires { (t : _) → Numbered (shape t) → F.pre wanted t }
        ensures value { (test : Tok → Option T) → Tells (F.post wanted) (λ r. r) test → and_then result (λ r. Ok (r.0, self.new.pos)) ≡ pick test (token_at self.old.script.now self.old.pos) }
        ensures span { (test : Tok → Bool) → Tells (F.post wanted) is_some test → and_then result (λ r. Ok r.1) ≡ accept test (token_at self.old.script.now self.old.pos) }
        ensures reader { self.new ≡ passed self.old (and_then result (λ r. Ok r.1)) }
    {
        let lexed = next(self.script, self.pos)?;
        match wanted(lexed.token) {
            Some(x) => {
                self.pos = lexed.span.after;
                Ok((x, lexed.span))
            }
            None => Err(Cause::Grammar.at(lexed.span.place)),
        }
    }

    // Where the next token stands, if it passes a test; if not, text off the grammar, told at that token.
    fn accept<F: FnOnce(Token<'a>) -> bool>(&mut self, wanted: F) -> Result<Span, Refusal>
        requires { (t : _) → Numbered (shape t) → F.pre wanted t }
        ensures value { (test : Tok → Bool) → Tells (F.post wanted) (λ b. b) test → result ≡ accept test (token_at self.old.script.now self.old.pos) }
        ensures reader { self.new ≡ passed self.old result }
    {
        let (_, span) = self.pick(
            |t| -> Option<()>
                requires { F.pre wanted t }
                ensures { (b : _) × F.post wanted t.entry b × (is_some result ≡ b) }
            { wanted(t).then_some(()) },
        )?;
        Ok(span)
    }

    // A step for each token, and no `==` with a wanted one: of a derived `==` on tokens the proof learns nothing (tried).
    pub(crate) fn open(&mut self) -> Result<Span, Refusal>
        ensures value { result ≡ accept is_open (token_at self.old.script.now self.old.pos) }
        ensures reader { self.new ≡ passed self.old result }
    {
        self.accept(|t| matches!(t, Token::Open))
    }

    pub(crate) fn close(&mut self) -> Result<Span, Refusal>
        ensures value { result ≡ accept is_close (token_at self.old.script.now self.old.pos) }
        ensures reader { self.new ≡ passed self.old result }
    {
        self.accept(|t| matches!(t, Token::Close))
    }

    // The end of the script.
    pub(crate) fn end(&mut self) -> Result<Span, Refusal>
        ensures value { result ≡ accept is_end (token_at self.old.script.now self.old.pos) }
        ensures reader { self.new ≡ passed self.old result }
    {
        self.accept(|t| matches!(t, Token::End))
    }

    // Any name.
    pub(crate) fn name(&mut self) -> Result<Span, Refusal>
        ensures value { result ≡ accept is_name (token_at self.old.script.now self.old.pos) }
        ensures reader { self.new ≡ passed self.old result }
    {
        self.accept(|t| matches!(t, Token::Name(_)))
    }

    // This very name.
    pub(crate) fn word(&mut self, wanted: &[u8]) -> Result<Span, Refusal>
        ensures value { result ≡ accept (is_word wanted.now) (token_at self.old.script.now self.old.pos) }
        ensures reader { self.new ≡ passed self.old result }
    {
        self.accept(|t| matches!(t, Token::Name(text) if text == wanted))
    }

    // A numeral: its number. This and `keyword` only leave out where the token stands; what they share is `pick`.
    pub(crate) fn number(&mut self) -> Result<u32, Refusal>
        ensures value { and_then result (λ k. Ok (k, self.new.pos)) ≡ pick number_in (token_at self.old.script.now self.old.pos) }
        ensures script { self.new.script ≡ self.old.script }
    {
        let (number, _) = self.pick(number_in)?;
        Ok(number)
    }

    // A command's word: what it asks for.
    pub(crate) fn keyword(&mut self) -> Result<Keyword, Refusal>
        ensures value { and_then result (λ k. Ok (k, self.new.pos)) ≡ pick keyword_in (token_at self.old.script.now self.old.pos) }
        ensures script { self.new.script ≡ self.old.script }
    {
        let (keyword, _) = self.pick(keyword_in)?;
        Ok(keyword)
    }
}
