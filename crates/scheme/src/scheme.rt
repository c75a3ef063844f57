// The interface of and-schemes.
ghost use Rattle.std.specs.Prelude.{◌≡◌, ℕ, ◌≤◌};
ghost use Rattle.scheme.specs.Stated.{Sized, Adds, Outcome};

use crate::lemma::Lemma;
use refusal::Refusal;
use target::row::Row;

// An and-scheme states that one number is the bitwise and of two others (specs/Stated.antt says it in full).
pub trait Scheme {
    // how many rows it adds at a width
    ghost size: { Self → ℕ → ℕ };

    // which rows it adds, and its answer
    ghost adds: { Self → Adds };

    // How many rows it adds at the width k; widths that it refuses have their number too.
    fn size_at(&self, k: u32) -> usize
        ensures { result ≡ size self.now k };

    // States that the row c is the bitwise and of the rows a and b, at the width k. `count` rows of the table are
    // in use. Granted, the answer is a row that is true exactly when it is so; refused, the table is as it was.
    // (`count` stands beside the lemma, since it belongs to the slice that the caller supplies.)
    fn state(&self, rows: &mut [Row], count: usize, lemma: Lemma) -> Result<usize, Refusal>
        ensures { Outcome (size self.now lemma.k) (adds self.now) rows.old rows.new count lemma result };

    ghost sized: { (s : Self) (k : ℕ) → 1 ≤ k → k ≤ 32 → Sized (size s k) k };
}
