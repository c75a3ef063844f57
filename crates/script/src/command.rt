// The commands of a script.
use crate::token::Span;

// The two ways to declare a register. They are told apart, since only a function has parameters to be read.
#[derive(Clone, Copy, PartialEq, Eq, Debug)]
pub enum Form {
    // declare-const
    Constant,
    // declare-fun, with no parameters
    Function,
}

// What a command's word asks for.
#[derive(Clone, Copy, PartialEq, Eq, Debug)]
pub enum Keyword {
    CheckSat,
    Declare(Form),
}

// A declaration as it was read: where its name and its last parenthesis stand, and the width.
#[derive(Clone, Copy, PartialEq, Eq, Debug)]
pub struct Declaration {
    pub name: Span,
    pub width: u32,
    pub close: Span,
}
