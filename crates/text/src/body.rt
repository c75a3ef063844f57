// What a row is defined as.
// (It is put into a draft, and not printed by `write!`: draft.rt says why.)
ghost use Rattle.std.specs.Prelude.{◌≡◌, ◌≤◌, ◌++◌, length};
ghost use Rattle.text.specs.Kept.{kept};
ghost use Rattle.text.specs.Lines.{call_text, body_of};

use crate::draft::Draft;
use target::row::Row;

impl Draft {
    // Puts an operation on rows, as `(+ t3 t5)`.
    #[tactic(auto, using(crate::proofs::Pieces::operands))]
    fn call(&mut self, op: &str, operands: &[usize])
        ensures { self.new ≡ kept (self.old ++ call_text op.now operands.now) }
    {
        self.text("(");
        self.text(op);
        for row in operands {
            self.text(" t");
            self.number(*row);
        }
        self.text(")");
    }

    // Puts what a row is defined as, which 80 bytes hold.
    #[tactic(auto, using(crate::proofs::Pieces::pieces))]
    pub(crate) fn body(&mut self, row: Row)
        ensures bytes { self.new ≡ kept (self.old ++ body_of row) }
        ensures most { length (body_of row) ≤ 80 }
    {
        match row {
            Row::Unknown => self.text(""), // nothing, within the 128 bytes
            Row::Number(n) => self.number(n as usize), // of 64 bits both, and no `From` says so
            Row::Truth(true) => self.text("true"),
            Row::Truth(false) => self.text("false"),
            Row::Add(a, b) => self.call("+", &[a, b]),
            Row::Sub(a, b) => self.call("-", &[a, b]),
            Row::Times(a, b) => self.call("*", &[a, b]),
            Row::Quot(a, b) => self.call("div", &[a, b]),
            Row::Rem(a, b) => self.call("mod", &[a, b]),
            Row::Equal(a, b) => self.call("=", &[a, b]),
            Row::Less(a, b) => self.call("<", &[a, b]),
            Row::AtMost(a, b) => self.call("<=", &[a, b]),
            Row::Not(a) => self.call("not", &[a]),
            Row::And(a, b) => self.call("and", &[a, b]),
            Row::Or(a, b) => self.call("or", &[a, b]),
            Row::Choose(_, c, a, b) => self.call("ite", &[c, a, b]),
        }
    }
}
