// Declarations: the name, the parameters and the sort of a register.
ghost use Rattle.std.specs.Prelude.{◌≡◌, ◌<◌, IfOk};
ghost use Rattle.script.specs.Tokens.{token_at};
ghost use Rattle.script.specs.Words.{among};
ghost use Rattle.script.specs.Steps.{and_then};
ghost use Rattle.script.specs.Filled.{filled, room_of};
ghost use Rattle.script.specs.Reading.{take_name, texts, text_in, sort_at, parameters_at, declaration_at};

use crate::bytes::between;
use crate::command::{Declaration, Form};
use crate::names::Name;
use crate::steps::Reader;
use crate::table::Table;
use crate::token::Span;
use crate::words::is_reserved;
use refusal::{Cause, Refusal};

// Whether one of the names so far is this text.
fn is_taken(script: &[u8], names: &[Name], text: &[u8]) -> bool
    ensures { result ≡ among (texts (token_at script.now) (text_in script.now) names.now) text.now }
{
    names
        .iter()
        .any(|n| between(script, n.place, n.after) == text)
}

// A register's name at a span, unless it is reserved or repeated or there is no room for it.
fn take_name(script: &[u8], names: &Table<Name>, span: Span) -> Result<Span, Refusal>
    ensures value { result ≡ take_name (texts (token_at script.now) (text_in script.now) (filled names.now)) (room_of names.now) (text_in script.now span.place span.after) span }
    ensures place { IfOk result (λ s. s ≡ span) }
    ensures room { IfOk result (λ s. names.now.used < room_of names.now) }
{
    let text = between(script, span.place, span.after);
    if is_reserved(text) || is_taken(script, names.filled(), text) {
        return Err(Cause::Name.at(span.place));
    }
    if names.is_full() {
        return Err(Cause::Capacity.at(span.place));
    }
    Ok(span)
}

impl<'a> Reader<'a> {
    // ( _ BitVec k ): k.
    fn sort(&mut self) -> Result<u32, Refusal>
        ensures value { and_then result (λ k. Ok (k, self.new.pos)) ≡ sort_at (token_at self.old.script.now) (text_in self.old.script.now) self.old.pos }
        ensures script { self.new.script ≡ self.old.script }
    {
        self.open()?;
        self.word(b"_")?;
        self.word(b"BitVec")?;
        let width = self.number()?;
        self.close()?;
        Ok(width)
    }

    // What stands between a register's name and its sort: nothing, or ( ).
    fn parameters(&mut self, form: Form) -> Result<(), Refusal>
        ensures value { and_then result (λ u. Ok self.new.pos) ≡ parameters_at (token_at self.old.script.now) (text_in self.old.script.now) form self.old.pos }
        ensures script { self.new.script ≡ self.old.script }
    {
        if form == Form::Function {
            self.open()?;
            self.close()?;
        }
        Ok(())
    }

    // The rest of a declaration, after its word. The table holds the names so far.
    pub(crate) fn declaration(
        &mut self,
        names: &Table<Name>,
        form: Form,
    ) -> Result<Declaration, Refusal>
        ensures value { result ≡ declaration_at (token_at self.old.script.now) (text_in self.old.script.now) (room_of names.now) form (filled names.now) self.old.pos }
        ensures reader { IfOk result (λ d. self.new ≡ record self.old { pos = d.close.after }) }
        ensures room { IfOk result (λ d. names.now.used < room_of names.now) }
    {
        let name = self.name()?;
        let name = take_name(self.script, names, name)?;
        self.parameters(form)?;
        let width = self.sort()?;
        let close = self.close()?;
        Ok(Declaration { name, width, close })
    }
}
