// The rows of the target.
ghost use Rattle.std.specs.Prelude.{◌≡◌};
ghost use Rattle.target.specs.Sorts.{sort_of};

// The sort of a row: a whole number or a truth value.
#[derive(Clone, Copy, PartialEq, Eq, Debug)]
pub enum Sort {
    Int,
    Bool,
}

// A row of the target. The numbers in a row are the indices of its operands, but for `Number`, which
// holds its own value. `Choose` stores the sort of its branches, so that a row's sort never has to be
// looked for in other rows; its operands are the condition, the row it is when that is true, and the
// row it is otherwise.
#[derive(Clone, Copy, PartialEq, Eq, Debug)]
pub enum Row {
    Unknown,
    Number(u64),
    Truth(bool),
    Add(usize, usize),
    Sub(usize, usize),
    Times(usize, usize),
    Quot(usize, usize),
    Rem(usize, usize),
    Equal(usize, usize),
    Less(usize, usize),
    AtMost(usize, usize),
    Not(usize),
    And(usize, usize),
    Or(usize, usize),
    Choose(Sort, usize, usize, usize),
}

impl Row {
    pub fn sort(self) -> Sort
        ensures { result ≡ sort_of self }
    {
        match self {
            Row::Unknown
            | Row::Number(_)
            | Row::Add(_, _)
            | Row::Sub(_, _)
            | Row::Times(_, _)
            | Row::Quot(_, _)
            | Row::Rem(_, _) => Sort::Int,
            Row::Truth(_)
            | Row::Equal(_, _)
            | Row::Less(_, _)
            | Row::AtMost(_, _)
            | Row::Not(_)
            | Row::And(_, _)
            | Row::Or(_, _) => Sort::Bool,
            Row::Choose(sort, _, _, _) => sort,
        }
    }
}
