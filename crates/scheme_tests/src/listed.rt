// What callers of sum and bitwise learn of the rows: exactly those that are written out.
// `count` stands beside the lemma, since it belongs to the slice that the caller supplies.
ghost use Rattle.std.specs.Prelude.{◌≡◌, ℕ, List};
ghost use Rattle.target.specs.declared.row.Row.{Row};
ghost use Rattle.scheme.specs.declared.lemma.Lemma.{Lemma};
ghost use Rattle.scheme.specs.Shared.{Listed};
ghost use Rattle.scheme.specs.Stated.{Outcome};
ghost use Rattle.scheme_tests.specs.Lists.{Lists};
ghost use Rattle.scheme_tests.specs.Placed.{placed};

use crate::expected::Frame;
use refusal::Refusal;
use scheme::lemma::Lemma;
use scheme::scheme::Scheme;
use target::row::Row;

// An and-scheme whose rows are written out as a list, from how many rows are before and the lemma.
pub trait Lister: Scheme {
    ghost list: { ℕ → Lemma → List Row };

    // Row j of the list, from its place alone; past the last an unknown, of which no scheme adds any. (Frame and place stand
    // side by side: each row of one frame is asked for.)
    fn row(f: Frame, j: usize) -> Row
        ensures { result ≡ placed list f j };

    // It adds no other rows than those of the list, and the last of them is its answer.
    ghost listed: { (s : Self) (before : List Row) (l : Lemma) (new : List Row) (answer : ℕ) → Self.adds s before l new answer → Listed (Self.size s) list before l new answer };
}

// States the lemma: what `state` promises, and what it says of the list.
pub fn listed<S: Lister>(
    scheme: &S,
    rows: &mut [Row],
    count: usize,
    lemma: Lemma,
) -> Result<usize, Refusal>
    ensures lists { Lists (S.size scheme.now) S.list rows.old rows.new count lemma result }
    ensures outcome { Outcome (S.size scheme.now lemma.k) (S.adds scheme.now) rows.old rows.new count lemma result }
{
    scheme.state(rows, count, lemma)
}
