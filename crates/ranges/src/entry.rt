// The rows of a table.
use source::operator::Operator;
use source::width::Width;

#[derive(Clone, Copy)]
pub enum Entry {
    // any number of the width
    Any(Width),
    // a constant
    Number(Width, u64),
    // an operator, the width of its result, and the rows it is applied to; it looks only at as many as it has
    Applied(Operator, Width, usize, usize, usize),
}
