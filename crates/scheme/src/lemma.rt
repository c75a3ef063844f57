// What an and-scheme states.

// That the row c is the bitwise and of the rows a and b, at the width k.
#[derive(Clone, Copy, PartialEq, Eq, Debug)]
pub struct Lemma {
    pub k: u32,
    pub a: usize,
    pub b: usize,
    pub c: usize,
}
