// A line in the making, put together piece by piece.
//
// No writer for `write!`: its contract says nothing where it answers an error, nor that a buffer with room gives none, so
// the goal at that error stayed open, and with it what `line` answers.
ghost use Rattle.std.specs.Prelude.{◌≡◌, [], ◌++◌};

use std::marker::Model;

// What was put so far, of which 128 bytes are kept: a line has no more. An array and its length, since lines are made
// without the heap.
#[derive(Drop)]
pub(crate) struct Draft {
    bytes: [u8; 128],
    len: usize,
}

impl Model for Draft {
    ghost use Rattle.std.specs.Prelude.{ℕ, ◌≤◌, List, take};

    ghost Value = { List ℕ };

    ghost view = { λ d. take d.len d.bytes };

    ghost invariant = { λ d. d.len ≤ 128 };
}

impl Draft {
    ghost use Rattle.text.specs.Numeral.{numeral};
    ghost use Rattle.text.specs.Kept.{kept};

    pub(crate) fn new() -> Draft
        ensures { result ≡ [] }
    {
        Draft {
            bytes: [0; 128],
            len: 0,
        }
    }

    pub(crate) fn bytes(&self) -> &[u8]
        ensures { result.now ≡ self.now }
    {
        &self.bytes[..self.len]
    }

    // Forgets what was put so far.
    pub(crate) fn clear(&mut self)
        ensures { self.new ≡ [] }
    {
        self.len = 0;
    }

    // Puts a text behind what there is. (One copy for what fits, so that LLVM knows its length: most texts are literals.)
    #[inline]
    pub(crate) fn text(&mut self, text: &str)
        ensures { self.new ≡ kept (self.old ++ text.now) }
    {
        let end = self.len + text.len();
        if end <= 128 {
            self.bytes[self.len..end].copy_from_slice(text.as_bytes());
            self.len = end;
        } else {
            self.fill(text);
        }
    }

    // Puts as much of a text as there is room for.
    fn fill(&mut self, text: &str)
        ensures { self.new ≡ kept (self.old ++ text.now) }
    {
        let count = text.len().min(128 - self.len);
        let end = self.len + count;
        self.bytes[self.len..end].copy_from_slice(&text.as_bytes()[..count]);
        self.len = end;
    }

    // Puts a number in decimal.
    #[tactic(auto, using(crate::proofs::Numerals::numeral_decimal))]
    pub(crate) fn number(&mut self, n: usize)
        ensures { self.new ≡ kept (self.old ++ numeral n) }
    {
        self.text(itoa::Buffer::new().format(n));
    }
}
