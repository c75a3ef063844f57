// One of two schemes, so that one list of calls can mix them.
// `count` stands beside the lemma, since it belongs to the slice that the caller supplies.
ghost use Rattle.scheme.specs.Eithers.{either_size, either_adds};
ghost use Rattle.scheme.specs.declared.either.Either.TheVariants.{First, Second};

use crate::lemma::Lemma;
use crate::scheme::Scheme;
use refusal::Refusal;
use target::row::Row;

// It is the scheme that it holds; for three schemes or more, nest it. An enum and no `dyn`: it is held without the heap,
// and which rows it adds is known.
#[derive(Clone, Copy)]
pub enum Either<S, T> {
    First(S),
    Second(T),
}

impl<S: Scheme, T: Scheme> Scheme for Either<S, T> {
    ghost size = { either_size S.Scheme.size T.Scheme.size };

    ghost adds = { either_adds S.Scheme.adds T.Scheme.adds };

    ghost sized = { elim [
      | First s ↦ λ k. S.Scheme.sized s k
      | Second t ↦ λ k. T.Scheme.sized t k
    ] };

    fn size_at(&self, k: u32) -> usize {
        match self {
            Either::First(s) => s.size_at(k),
            Either::Second(t) => t.size_at(k),
        }
    }

    fn state(&self, rows: &mut [Row], count: usize, lemma: Lemma) -> Result<usize, Refusal> {
        match self {
            Either::First(s) => s.state(rows, count, lemma),
            Either::Second(t) => t.state(rows, count, lemma),
        }
    }
}
