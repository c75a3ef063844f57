// The scheme that compares bit by bit.
// Rows are put at an index, since the table is a slice that the caller supplies.
ghost use Rattle.std.specs.Prelude.{◌≡◌, ◌+◌, ◌*◌, ◌≤◌, length};
ghost use Rattle.scheme.specs.BitwiseRows.{bitwise_turn, bitwise_rows, bitwise_size};
ghost use Rattle.std.proofs.Common.{rules};

use crate::base::Base;
use crate::lemma::Lemma;
use crate::put::{put, put_both, put_digit, put_pair};
use crate::turns::{Turn, put_digits};
use crate::written::Written;
use target::row::Row;

// 0, 1, 2 and true; for each bit its weight, the bits of a, b and c, the and of the first two, whether the third is
// that, and whether all so far are. Width k takes 13 k + 4 rows.
#[derive(Clone, Copy, PartialEq, Eq, Debug)]
pub struct Bitwise;

impl Turn for Bitwise {
    ghost block = { bitwise_turn };

    ghost some = { Prim.search rules };

    fn put_turn(base: Base, rows: &mut [Row], i: u32, former: usize, at: usize) -> usize {
        put_pair(rows, at, i, base);
        put_digit(rows, at + 5, base.lemma.c, at, base.two);
        put_both(rows, at + 7, at + 2, at + 4, base);
        put(
            rows,
            at + 11,
            &[Row::Equal(at + 6, at + 10), Row::And(former, at + 11)],
        );
        at + 12
    }
}

impl Written for Bitwise {
    ghost length_of = { bitwise_size };

    ghost list = { bitwise_rows };

    ghost few = { Prim.search rules };

    // `as`, since no `From` makes a `usize` of a `u32`.
    fn rows_at(k: u32) -> usize {
        13 * k as usize + 4
    }

    #[tactic(auto, using(crate::proofs::Fits::fit, crate::proofs::BitwiseOwes::bitwise_bits_length))]
    fn lay(rows: &mut [Row], count: usize, lemma: Lemma) -> usize {
        let begin = [
            Row::Number(0),
            Row::Number(1),
            Row::Number(2),
            Row::Truth(true),
        ];
        put_digits::<Bitwise>(rows, count, lemma, &begin, count + 3)
    }
}
