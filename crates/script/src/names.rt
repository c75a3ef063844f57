// The names that a script declares.

// A declared name: where it stands in the script, and the source row of its register. Bare numbers and no `Span`, since
// callers supply and read these rows, and a blank one is three zeros.
#[derive(Clone, Copy, PartialEq, Eq, Debug)]
pub struct Name {
    pub place: usize,
    pub after: usize,
    pub row: usize,
}
