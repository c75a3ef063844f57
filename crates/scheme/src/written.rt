// What schemes have in common whose rows are written out as a list.
// `count` stands beside the lemma, since it belongs to the slice that the caller supplies.
ghost use Rattle.std.specs.Prelude.{◌≡◌, ℕ, ◌≤◌, List, None};
ghost use Rattle.target.specs.declared.row.Row.{Row};
ghost use Rattle.scheme.specs.declared.lemma.Lemma.{Lemma};
ghost use Rattle.scheme.specs.Refusing.{cause_of};
ghost use Rattle.scheme.specs.Stated.{Sized, Stated};
ghost use Rattle.scheme.specs.Shared.{Listed};

use crate::cause::check;
use crate::lemma::Lemma;
use crate::scheme::Scheme;
use refusal::Refusal;
use target::row::Row;

// An and-scheme's list of rows, from how many rows are before and the lemma; the last of them is its answer.
pub(crate) trait Written {
    ghost length_of: { ℕ → ℕ };

    ghost list: { ℕ → Lemma → List Row };

    // How many rows there are at the width k.
    fn rows_at(k: u32) -> usize
        ensures { result ≡ length_of k };

    // Writes all rows from the index `count` on, where there is no cause to refuse, and answers the last of them.
    fn lay(rows: &mut [Row], count: usize, lemma: Lemma) -> usize
        requires { cause_of (length_of lemma.k) rows.old count lemma ≡ None }
        ensures { Stated (length_of lemma.k) (Listed length_of list) rows.old rows.new count lemma result };

    ghost few: { (k : ℕ) → 1 ≤ k → k ≤ 32 → Sized (length_of k) k };
}

impl<S: Written> Scheme for S {
    ghost size = { λ _. S.Written.length_of };

    ghost adds = { λ _. Listed S.Written.length_of S.Written.list };

    ghost sized = { λ _. S.Written.few };

    fn size_at(&self, k: u32) -> usize {
        S::rows_at(k)
    }

    fn state(&self, rows: &mut [Row], count: usize, lemma: Lemma) -> Result<usize, Refusal> {
        check(rows, S::rows_at(lemma.k), count, lemma)?;
        Ok(S::lay(rows, count, lemma))
    }
}
