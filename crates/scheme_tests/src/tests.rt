// Both schemes at widths 1, 2, 7, 31 and 32, through `Either`. (`as`, since no `From` makes a `usize` of a `u32`.)
use crate::evaluate::evaluate;
use crate::expected::{Frame, power};
use crate::listed::Lister;
use refusal::Cause;
use scheme::bitwise::Bitwise;
use scheme::either::Either;
use scheme::lemma::Lemma;
use scheme::scheme::Scheme;
use scheme::sum::Sum;
use std::process::Abort;
use target::row::Row;

// Eight rows: unknowns, but for the row 3. The operands are the rows 5, 2 and 7: the unknowns 4, 2 and 6.
fn table() -> [Row; 512] {
    let mut rows = [Row::Truth(false); 512];
    rows[..3].fill(Row::Unknown);
    rows[4..8].fill(Row::Unknown);
    rows
}

fn lemma(k: u32) -> Lemma {
    Lemma {
        k,
        a: 5,
        b: 2,
        c: 7,
    }
}

// A scheme of which every row is known, and what its answer says of numbers out of range too.
trait Tried: Lister {
    fn holds(x: u64, y: u64, z: u64, mask: u64) -> bool;
}

impl Tried for Sum {
    fn holds(x: u64, y: u64, z: u64, mask: u64) -> bool {
        z == (x & y & mask)
    }
}

impl Tried for Bitwise {
    fn holds(x: u64, y: u64, z: u64, mask: u64) -> bool {
        z & mask == (x & y & mask)
    }
}

// Every row of the table after a call.
fn rows_match<T: Tried>(rt: &impl Abort, rows: &[Row], k: u32, size: usize) {
    let frame = Frame {
        count: 8,
        lemma: lemma(k),
    };
    for (j, (row, before)) in rows.iter().zip(table().iter()).enumerate() {
        if j >= 8 && j - 8 < size {
            assert_eq!(rt; *row, T::row(frame, j - 8));
        } else {
            assert_eq!(rt; *row, *before);
        }
    }
}

// The answer under numbers in range and out of it.
fn answers_match<T: Tried>(rt: &impl Abort, rows: &[Row], k: u32, answer: usize) {
    let mask = power(k as usize).wrapping_sub(1);
    let mut seed = 12345u64;
    for turn in 0..60u32 {
        seed = seed
            .wrapping_mul(6364136223846793005)
            .wrapping_add(1442695040888963407);
        let wide = turn % 3 == 2;
        let limit = if wide { 0xff_ffff_ffff } else { mask };
        let x = (seed >> 7) & limit;
        let y = (seed >> 19) & limit;
        let z = if turn % 2 == 0 {
            x & y
        } else {
            (x & y) ^ (power(turn as usize % 31) & limit)
        };
        let numbers = [1, 2, y, 3, x, 4, z];
        let mut values = [0u64; 512];
        evaluate(rows, &numbers, &mut values);
        let is = T::holds(x, y, z, mask);
        assert!(rt; wide || is == (z == (x & y)));
        assert_eq!(rt; values.get(answer).copied(), Some(u64::from(is)));
    }
}

fn trial<T: Tried>(rt: &impl Abort, scheme: &Either<Sum, Bitwise>) {
    for k in [1u32, 2, 7, 31, 32] {
        let mut rows = table();
        let size = scheme.size_at(k);
        match scheme.state(&mut rows, 8, lemma(k)) {
            Ok(answer) => {
                rows_match::<T>(rt, &rows, k, size);
                answers_match::<T>(rt, &rows, k, answer);
            }
            Err(_) => assert!(rt; false),
        }
    }
}

#[test]
fn sum(rt: HostRuntime) {
    trial::<Sum>(&rt, &Either::First(Sum));
}

#[test]
fn bitwise(rt: HostRuntime) {
    trial::<Bitwise>(&rt, &Either::Second(Bitwise));
}

// Each cause, and the first where there are two.
#[test]
fn refusals(rt: HostRuntime) {
    let mut rows = table();
    let outside = Lemma {
        k: 0,
        a: 600,
        b: 3,
        c: 7,
    };
    assert_eq!(rt;
        Sum.state(&mut rows, 513, outside),
        Err(Cause::TargetFull.at(513))
    );
    let later = Lemma {
        b: 3,
        c: 8,
        ..lemma(0)
    };
    assert_eq!(rt; Sum.state(&mut rows, 8, later), Err(Cause::Operand.at(8)));
    let truth = Lemma { b: 3, ..lemma(0) };
    assert_eq!(rt; Sum.state(&mut rows, 8, truth), Err(Cause::Sort.at(8)));
    assert_eq!(rt; Sum.state(&mut rows, 8, lemma(33)), Err(Cause::Range.at(8)));
    assert_eq!(rt;
        Bitwise.state(&mut rows, 8, lemma(0)),
        Err(Cause::Range.at(8))
    );
    let mut short = [Row::Unknown; 24];
    assert_eq!(rt;
        Bitwise.state(&mut short, 8, lemma(1)),
        Err(Cause::TargetFull.at(8))
    );
    let mut exact = [Row::Unknown; 25];
    assert_eq!(rt; Bitwise.state(&mut exact, 8, lemma(1)), Ok(24));
}
