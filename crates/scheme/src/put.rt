// Rows written where there is room for them, and the blocks of rows that schemes share.
//
// The table is a slice that the caller supplies, so rows are put at an index of it.
ghost use Rattle.std.specs.Prelude.{◌≡◌, ◌+◌, ◌<◌, ◌≤◌, length};
ghost use Rattle.target.specs.Tables.{laid};
ghost use Rattle.scheme.specs.Shared.{digit_rows, pair_rows, both_rows};

use crate::base::Base;
use target::row::{Row, Sort};
use target::table::lay;

// Writes `new` into the table from the index `at` on. It says once what `lay` leaves where there is room; one for all
// crates would be a public call that asks for room, and a public call takes every input.
pub(crate) fn put(rows: &mut [Row], at: usize, new: &[Row])
    requires { at + length new.now ≤ length rows.old }
    ensures { rows.new ≡ laid rows.old at new.now }
{
    let _ = lay(rows, at, new);
}

// A binary digit of the row x.
pub(crate) fn put_digit(rows: &mut [Row], at: usize, x: usize, weight: usize, two: usize)
    requires { at + 2 ≤ length rows.old }
    ensures { rows.new ≡ laid rows.old at (digit_rows x weight two at) }
{
    put(rows, at, &[Row::Quot(x, weight), Row::Rem(at, two)]);
}

// The weight of bit i, and that bit of the rows a and b.
pub(crate) fn put_pair(rows: &mut [Row], at: usize, i: u32, base: Base)
    requires { (i < 32) × (at + 5 ≤ length rows.old) }
    ensures { rows.new ≡ laid rows.old at (pair_rows i base.lemma.a base.lemma.b base.two at) }
{
    put(rows, at, &[Row::Number(1 << i)]);
    put_digit(rows, at + 1, base.lemma.a, at, base.two);
    put_digit(rows, at + 3, base.lemma.b, at, base.two);
}

// The and of the bits p and q, as 1 or 0.
pub(crate) fn put_both(rows: &mut [Row], at: usize, p: usize, q: usize, base: Base)
    requires { at + 4 ≤ length rows.old }
    ensures { rows.new ≡ laid rows.old at (both_rows p q base.zero base.one at) }
{
    put(
        rows,
        at,
        &[
            Row::Equal(p, base.one),
            Row::Equal(q, base.one),
            Row::And(at, at + 1),
            Row::Choose(Sort::Int, at + 2, base.one, base.zero),
        ],
    );
}
