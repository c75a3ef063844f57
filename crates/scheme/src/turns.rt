// Rows in turns, one for each digit: the loop that every scheme of digits runs.
//
// They are put at an index, since the table is a slice that the caller supplies; base, former row and index stand side by
// side, since each turn changes the last two alone.
ghost use Rattle.std.specs.Prelude.{◌≡◌, ℕ, ◌+◌, ◌<◌, ◌≤◌, ◌++◌, length};
ghost use Rattle.target.specs.Tables.{laid};
ghost use Rattle.scheme.specs.declared.base.Base.{Base};
ghost use Rattle.scheme.specs.Shared.{Turns, turns, last_of, base_of};

use crate::base::Base;
use crate::lemma::Lemma;
use crate::put::put;
use target::row::Row;

// The rows of one digit, from its number i, the last row of the turn before, and the index of its first row.
pub(crate) trait Turn {
    ghost block: { Base → Turns };

    // Writes the rows of the digit i from the index `at` on, and answers the last of them.
    fn put_turn(base: Base, rows: &mut [Row], i: u32, former: usize, at: usize) -> usize
        requires { (i < 32) × (at + length (block base i former at) ≤ length rows.old) }
        ensures table { rows.new ≡ laid rows.old at (block base i former at) }
        ensures last { result ≡ last_of former at (block base i former at) };

    ghost some: { (base : Base) (i former at : ℕ) → 1 ≤ length (block base i former at) };
}

// Writes the rows of the digits from 0 to below k from the index `at` on, and answers the last of them. The loop counts
// digits: the weight of each is made of its number.
fn put_turns<T: Turn>(base: Base, rows: &mut [Row], first: usize, at: usize, k: u32) -> usize
    requires { (k ≤ 32) × (at + length (turns (T.Turn.block base) first at k) ≤ length rows.old) }
    ensures table { rows.new ≡ laid rows.old at (turns (T.Turn.block base) first at k) }
    ensures last { result ≡ last_of first at (turns (T.Turn.block base) first at k) }
{
    let mut former = first;
    let mut next = at;
    for i in 0..k {
        former = T::put_turn(base, rows, i, former, next);
        next = former + 1;
    }
    former
}

// Writes `head`, which begins with the rows 0, 1 and 2, from the index `count` on, and behind it the rows of all
// digits; answers the last of them, or `first` where there is no digit.
pub(crate) fn put_digits<T: Turn>(
    rows: &mut [Row],
    count: usize,
    lemma: Lemma,
    head: &[Row],
    first: usize,
) -> usize
    requires { (lemma.k ≤ 32) × (2 ≤ length head.now) × (count + length head.now + length (turns (T.Turn.block (base_of count lemma)) first (count + length head.now) lemma.k) ≤ length rows.old) }
    ensures table { rows.new ≡ laid rows.old count (head.now ++ turns (T.Turn.block (base_of count lemma)) first (count + length head.now) lemma.k) }
    ensures last { result ≡ last_of first (count + length head.now) (turns (T.Turn.block (base_of count lemma)) first (count + length head.now) lemma.k) }
{
    put(rows, count, head);
    let base = Base {
        lemma,
        zero: count,
        one: count + 1,
        two: count + 2,
    };
    put_turns::<T>(base, rows, first, count + head.len(), lemma.k)
}
