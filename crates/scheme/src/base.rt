// What the rows of a digit go back to.
use crate::lemma::Lemma;

// The lemma that is stated, and the rows that are 0, 1 and 2.
#[derive(Clone, Copy)]
pub(crate) struct Base {
    pub lemma: Lemma,
    pub zero: usize,
    pub one: usize,
    pub two: usize,
}
