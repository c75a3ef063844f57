// The interface of range keepers.
ghost use Rattle.std.specs.Prelude.{◌≡◌, ℕ, ◌^◌, ◌<◌, ◌≤◌, true};
ghost use Rattle.source.specs.Widths.{is_width};
ghost use Rattle.source.specs.Sorts.{shape_of, count_of};
ghost use Rattle.source.specs.Values.{bits_of, number_of, taken, value_of};
ghost use Rattle.source.specs.declared.operator.Operator.{Operator};
ghost use Rattle.source.specs.declared.value.Value.{Value};
ghost use Rattle.keeper.specs.Descriptions.{Describes};

use source::operator::Operator;
use source::width::Width;

pub trait Keeper {
    // what the keeper stores for a source row
    type Record: Copy;

    // the width that a record was made at
    ghost bears: { Self → Self.Record → ℕ };

    // the numbers that a record stands for
    ghost holds: { Self → Self.Record → ℕ → Type 0 };

    // the least and the largest number that a record may stand for
    ghost lowest: { Self → Self.Record → ℕ };

    ghost highest: { Self → Self.Record → ℕ };

    // the record of a row of which nothing is known but its width
    ghost whole: { Self → ℕ → Self.Record };

    // the record of a row of a width and a constant number
    ghost exact: { Self → ℕ → ℕ → Self.Record };

    // the record of a row of a width that applies an operator to rows with these records
    ghost makes: { Self → Operator → ℕ → Self.Record → Self.Record → Self.Record → Self.Record };

    // The record of a row of which nothing is known but its width.
    fn anything(&self, width: Width) -> Self::Record
        ensures { result ≡ whole self.now width.bits };

    // The record of a constant. A number that the width has no room for tells nothing.
    fn exactly(&self, width: Width, n: u64) -> Self::Record
        ensures { result ≡ exact self.now width.bits n };

    // No number that the record stands for is smaller.
    fn least(&self, r: Self::Record) -> u64
        ensures { result ≡ lowest self.now r };

    // No number that the record stands for is larger.
    fn most(&self, r: Self::Record) -> u64
        ensures { result ≡ highest self.now r };

    // The record of a row that applies an operator to rows with the records a, b and c. An operand that the
    // operator does not have is not looked at: any record will do for it.
    fn made(
        &self,
        op: Operator,
        width: Width,
        a: Self::Record,
        b: Self::Record,
        c: Self::Record,
    ) -> Self::Record
        ensures { result ≡ makes self.now op width.bits a b c };

    ghost inside: { (keeper : Self) (r : Self.Record) (n : ℕ) → holds keeper r n → n < 2 ^ bears keeper r };

    ghost bounded: { (keeper : Self) (r : Self.Record) → (lowest keeper r ≤ highest keeper r) × (highest keeper r < 2 ^ bears keeper r) };

    ghost enclosed: { (keeper : Self) (r : Self.Record) (n : ℕ) → holds keeper r n → (lowest keeper r ≤ n) × (n ≤ highest keeper r) };

    ghost whole_bears: { (keeper : Self) (k : ℕ) → is_width k ≡ true → bears keeper (whole keeper k) ≡ k };

    ghost whole_holds: { (keeper : Self) (k n : ℕ) → is_width k ≡ true → n < 2 ^ k → holds keeper (whole keeper k) n };

    ghost exact_bears: { (keeper : Self) (k n : ℕ) → is_width k ≡ true → bears keeper (exact keeper k n) ≡ k };

    ghost exact_holds: { (keeper : Self) (k n : ℕ) → is_width k ≡ true → n < 2 ^ k → holds keeper (exact keeper k n) n };

    ghost makes_bears: { (keeper : Self) (op : Operator) (k : ℕ) (a b c : Self.Record) → is_width k ≡ true → bears keeper (makes keeper op k a b c) ≡ k };

    // from records that describe an operator's operands, a record that holds its value's number is made
    ghost makes_holds: { (keeper : Self) (op : Operator) (k : ℕ) (a b c : Self.Record) (va vb vc : Value) →
        taken op va vb vc ≡ true → bits_of (value_of op va vb vc) ≡ k →
        Describes (bears keeper) (holds keeper) a va →
        (2 ≤ count_of (shape_of op) → Describes (bears keeper) (holds keeper) b vb) →
        (3 ≤ count_of (shape_of op) → Describes (bears keeper) (holds keeper) c vc) →
        holds keeper (makes keeper op k a b c) (number_of (value_of op va vb vc)) };
}
