// The row at a place of a scheme's list, from the place alone. Both lists are written out row by row, so that nothing of
// the schemes' own code is used. (`as`, since no `From` makes a `usize` of a `u32`, or a `u64` of a `usize`.)
ghost use Rattle.std.specs.Prelude.{◌≡◌, ℕ, ◌+◌, ◌*◌, ◌-◌, ◌/◌, ◌%◌, ◌^◌, ◌<◌, ◌≤◌, slice_index_or};
ghost use Rattle.scheme.specs.Shared.{turns, last_of};
ghost use Rattle.scheme.specs.SumRows.{sum_rows};
ghost use Rattle.scheme.specs.BitwiseRows.{bitwise_rows};
ghost use Rattle.target.specs.declared.row.Row.TheVariants.{Unknown};
ghost use Rattle.scheme_tests.specs.Placed.{is_small, sums, compares};

use crate::listed::Lister;
use scheme::bitwise::Bitwise;
use scheme::lemma::Lemma;
use scheme::sum::Sum;
use target::row::{Row, Sort};

// Where the rows of a list begin, and the lemma that they state.
#[derive(Clone, Copy)]
pub struct Frame {
    pub count: usize,
    pub lemma: Lemma,
}

impl Frame {
    // Whether it is one of a width and a place that schemes are tried at.
    fn is_small(self) -> bool
        ensures { result ≡ is_small self }
    {
        self.lemma.k <= 32 && self.count < 65536
    }
}

// 2 to the power i, of which 64 bits are kept.
pub fn power(i: usize) -> u64
    ensures { result ≡ 2 ^ i % 2 ^ 64 }
{
    if i < 64 { 1 << i } else { 0 }
}

// The digit i of a list, whose rows begin at p.
#[derive(Clone, Copy)]
struct Digit {
    f: Frame,
    i: usize,
    p: usize,
    ghost low: { i ≤ 32 },
    ghost near: { f.count < 65536 },
    ghost place: { (1 ≤ p) × (p < 65536 * 2) },
}

impl Digit {
    // The row with the total before it, of sum.
    #[tactic(auto, using(crate::proofs::PlacedRows::sum_total))]
    fn total_before(self) -> usize
        ensures { result ≡ last_of self.f.count (self.f.count + 3) (turns (sums self.f) self.f.count (self.f.count + 3) self.i) }
    {
        if self.i == 0 {
            self.f.count
        } else {
            self.f.count + 2 + 11 * self.i
        }
    }

    // Its row r, of sum; `former` is the total before it.
    fn sum_row(self, former: usize, r: usize) -> Row
        ensures { result ≡ slice_index_or (sums self.f self.i former self.p) r Unknown }
    {
        match r {
            0 => Row::Number(power(self.i)),
            1 => Row::Quot(self.f.lemma.a, self.p),
            2 => Row::Rem(self.p + 1, self.f.count + 2),
            3 => Row::Quot(self.f.lemma.b, self.p),
            4 => Row::Rem(self.p + 3, self.f.count + 2),
            5 => Row::Equal(self.p + 2, self.f.count + 1),
            6 => Row::Equal(self.p + 4, self.f.count + 1),
            7 => Row::And(self.p + 5, self.p + 6),
            8 => Row::Choose(Sort::Int, self.p + 7, self.f.count + 1, self.f.count),
            9 => Row::Times(self.p, self.p + 8),
            10 => Row::Add(former, self.p + 9),
            _ => Row::Unknown,
        }
    }

    // Its row r, of bitwise.
    fn bitwise_row(self, r: usize) -> Row
        ensures { result ≡ slice_index_or (compares self.f self.i (self.p - 1) self.p) r Unknown }
    {
        match r {
            0 => Row::Number(power(self.i)),
            1 => Row::Quot(self.f.lemma.a, self.p),
            2 => Row::Rem(self.p + 1, self.f.count + 2),
            3 => Row::Quot(self.f.lemma.b, self.p),
            4 => Row::Rem(self.p + 3, self.f.count + 2),
            5 => Row::Quot(self.f.lemma.c, self.p),
            6 => Row::Rem(self.p + 5, self.f.count + 2),
            7 => Row::Equal(self.p + 2, self.f.count + 1),
            8 => Row::Equal(self.p + 4, self.f.count + 1),
            9 => Row::And(self.p + 7, self.p + 8),
            10 => Row::Choose(Sort::Int, self.p + 9, self.f.count + 1, self.f.count),
            11 => Row::Equal(self.p + 6, self.p + 10),
            12 => Row::And(self.p - 1, self.p + 11),
            _ => Row::Unknown,
        }
    }
}

impl Lister for Sum {
    ghost list = { sum_rows };

    ghost listed = { λ s before l new answer h. h };

    #[tactic(auto, using(crate::proofs::PlacedRows::sum_past, crate::proofs::PlacedRows::sum_end))]
    fn row(f: Frame, j: usize) -> Row {
        if !f.is_small() {
            return Row::Unknown;
        }
        if j >= 11 * f.lemma.k as usize + 4 {
            return Row::Unknown;
        }
        if j < 3 {
            return Row::Number(j as u64);
        }
        let i = (j - 3) / 11;
        let digit = Digit {
            f,
            i,
            p: f.count + 3 + 11 * i,
        };
        let former = digit.total_before();
        if i >= f.lemma.k as usize {
            return Row::Equal(f.lemma.c, former);
        }
        digit.sum_row(former, (j - 3) % 11)
    }
}

impl Lister for Bitwise {
    ghost list = { bitwise_rows };

    ghost listed = { λ s before l new answer h. h };

    #[tactic(auto, using(crate::proofs::PlacedRows::bitwise_past, crate::proofs::PlacedRows::bitwise_inner))]
    fn row(f: Frame, j: usize) -> Row {
        if !f.is_small() {
            return Row::Unknown;
        }
        if j >= 13 * f.lemma.k as usize + 4 {
            return Row::Unknown;
        }
        if j < 3 {
            return Row::Number(j as u64);
        }
        if j == 3 {
            return Row::Truth(true);
        }
        let i = (j - 4) / 13;
        let digit = Digit {
            f,
            i,
            p: f.count + 4 + 13 * i,
        };
        digit.bitwise_row((j - 4) % 13)
    }
}
