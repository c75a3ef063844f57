// The scheme that adds up the bits of the and, and compares once.
// Rows are put at an index, since the table is a slice that the caller supplies.
ghost use Rattle.std.specs.Prelude.{◌≡◌, ◌+◌, ◌*◌, ◌≤◌, length};
ghost use Rattle.scheme.specs.SumRows.{sum_turn, sum_rows, sum_size};
ghost use Rattle.std.proofs.Common.{rules};

use crate::base::Base;
use crate::lemma::Lemma;
use crate::put::{put, put_both, put_pair};
use crate::turns::{Turn, put_digits};
use crate::written::Written;
use target::row::Row;

// 0, 1 and 2; for each bit its weight, the bits of a and b, their and, and the total so far; and whether c is the
// total. Width k takes 11 k + 4 rows.
#[derive(Clone, Copy, PartialEq, Eq, Debug)]
pub struct Sum;

impl Turn for Sum {
    ghost block = { sum_turn };

    ghost some = { Prim.search rules };

    fn put_turn(base: Base, rows: &mut [Row], i: u32, former: usize, at: usize) -> usize {
        put_pair(rows, at, i, base);
        put_both(rows, at + 5, at + 2, at + 4, base);
        put(
            rows,
            at + 9,
            &[Row::Times(at, at + 8), Row::Add(former, at + 9)],
        );
        at + 10
    }
}

impl Written for Sum {
    ghost length_of = { sum_size };

    ghost list = { sum_rows };

    ghost few = { Prim.search rules };

    // `as`, since no `From` makes a `usize` of a `u32`.
    fn rows_at(k: u32) -> usize {
        11 * k as usize + 4
    }

    #[tactic(auto, using(crate::proofs::Fits::fit, crate::proofs::SumOwes::sum_bits_length))]
    fn lay(rows: &mut [Row], count: usize, lemma: Lemma) -> usize {
        let begin = [Row::Number(0), Row::Number(1), Row::Number(2)];
        let total = put_digits::<Sum>(rows, count, lemma, &begin, count);
        let last = count + (11 * lemma.k as usize + 3); // `as`, as in `rows_at`
        put(rows, last, &[Row::Equal(lemma.c, total)]);
        last
    }
}
