// Why a call refuses: the causes, the number and the layer of each.
//
// Every refusal of the product is one of these causes with one number beside it: a byte place of the
// script, a count of rows, or a row. What that number is stands in the contract of the call that refuses.
#![tactic(auto)]

ghost use Rattle.std.specs.Prelude.{◌≡◌};
ghost use Rattle.refusal.specs.Causes.{number_of, layer_of, word_of, told};

#[derive(Clone, Copy, PartialEq, Eq, Debug)]
pub enum Cause {
    // an order that the workbook does not take yet
    NotYet,
    // text off the grammar, or cut short
    Grammar,
    // a name unknown, repeated or reserved; a wrong count of operands
    Name,
    // a term nested too deep
    Depth,
    // the script too long; the order table or the name table full
    Capacity,
    // an operand that is no existing row
    Operand,
    // an operand of the wrong sort, or operands of unequal widths
    Sort,
    // a width, a constant or extract's bounds outside their limits
    Range,
    // the same of a constant that is spelled in a script
    ConstantRange,
    // source rows or their records full
    SourcesFull,
    // target rows or assertions full
    TargetFull,
    // too many open levels, or a slip that is not the top level's
    Level,
    // a solver's numbers, or the tables for their values, not of the length wanted
    ModelLength,
    // a register's number outside its width
    RegisterRange,
    // an and-unknown that is not the bitwise and
    AndUnknown,
    // a requirement that the numbers do not meet
    Requirement,
    // no such line, or no room for it
    Line,
}

// The part of the product that refuses.
#[derive(Clone, Copy, PartialEq, Eq, Debug)]
pub enum Layer {
    Text,
    Order,
    Workbook,
    Model,
    Line,
}

#[derive(Clone, Copy, PartialEq, Eq, Debug)]
pub struct Refusal {
    pub cause: Cause,
    pub at: usize,
}

impl Cause {
    // The refusal for this cause that tells the number `at`.
    pub fn at(self, at: usize) -> Refusal
        ensures { result ≡ told self at }
    {
        Refusal { cause: self, at }
    }

    pub fn layer(self) -> Layer
        ensures { result ≡ layer_of self }
    {
        match self {
            Cause::Grammar | Cause::Name | Cause::Depth | Cause::Capacity | Cause::ConstantRange =>
                Layer::Text,
            Cause::Operand | Cause::Sort | Cause::Range => Layer::Order,
            Cause::NotYet | Cause::SourcesFull | Cause::TargetFull | Cause::Level =>
                Layer::Workbook,
            Cause::ModelLength | Cause::RegisterRange | Cause::AndUnknown | Cause::Requirement =>
                Layer::Model,
            Cause::Line => Layer::Line,
        }
    }
}

// The number under which a refusal is printed.
impl From<Cause> for u8 {
    ghost from_gives = { λ cause n. n ≡ number_of cause };

    fn from(cause: Cause) -> u8 {
        match cause {
            Cause::NotYet => 0,
            Cause::Grammar => 1,
            Cause::Name => 2,
            Cause::Depth => 3,
            Cause::Capacity => 4,
            Cause::Operand => 5,
            Cause::Sort => 6,
            Cause::Range | Cause::ConstantRange => 7,
            Cause::SourcesFull => 8,
            Cause::TargetFull => 9,
            Cause::Level => 10,
            Cause::ModelLength => 11,
            Cause::RegisterRange => 12,
            Cause::AndUnknown => 13,
            Cause::Requirement => 14,
            Cause::Line => 15,
        }
    }
}

impl Layer {
    // The word under which a layer is printed. It has no Display, since its one reader puts texts into a line of fixed
    // size, where `write!` promises nothing once it answers an error, and no contract says that it answers none.
    pub fn word(self) -> &'static str
        ensures { result.now ≡ word_of self }
    {
        match self {
            Layer::Text => "text",
            Layer::Order => "order",
            Layer::Workbook => "workbook",
            Layer::Model => "model",
            Layer::Line => "line",
        }
    }
}
