// The values of a table's rows, for numbers from 0: truth values are 1 and 0.
ghost use Rattle.std.specs.Prelude.{◌≡◌, ℕ, ◌+◌, ◌^◌, ◌<◌, ◌≤◌, length, slice_index};
ghost use Rattle.target.specs.Meaning.{unknown};
ghost use Rattle.scheme_tests.specs.Evaluated.{stepped, Evaluates};

use target::row::Row;

// The number at i, and 0 past the end.
fn at(numbers: &[u64], i: usize) -> u64
    ensures { result ≡ slice_index numbers.now i }
{
    numbers.get(i).copied().unwrap_or(0)
}

// The value of a row that n unknowns stand before.
fn value(row: Row, numbers: &[u64], n: usize, values: &[u64]) -> u64
    ensures { result ≡ stepped row numbers.now n values.now }
{
    match row {
        Row::Unknown => at(numbers, n),
        Row::Number(m) => m,
        Row::Truth(b) => u64::from(b),
        Row::Add(i, j) => at(values, i).wrapping_add(at(values, j)),
        Row::Sub(i, j) => at(values, i).wrapping_sub(at(values, j)),
        Row::Times(i, j) => at(values, i).wrapping_mul(at(values, j)),
        Row::Quot(i, j) => at(values, i).checked_div(at(values, j)).unwrap_or(0),
        Row::Rem(i, j) => at(values, i).checked_rem(at(values, j)).unwrap_or(0),
        Row::Equal(i, j) => u64::from(at(values, i) == at(values, j)),
        Row::Less(i, j) => u64::from(at(values, i) < at(values, j)),
        Row::AtMost(i, j) => u64::from(at(values, i) <= at(values, j)),
        Row::Not(i) => u64::from(at(values, i) == 0),
        Row::And(i, j) => at(values, i).wrapping_mul(at(values, j)),
        Row::Or(i, j) => u64::from(at(values, i).wrapping_add(at(values, j)) > 0),
        Row::Choose(_, c, i, j) => if at(values, c) == 1 {
            at(values, i)
        } else {
            at(values, j)
        },
    }
}

// How many unknowns there are with a row that n of them stand before.
fn count_with(row: Row, n: usize) -> usize
    requires { n < 2 ^ 63 }
    ensures count { result ≡ n + unknown row }
    ensures few { result ≤ n + 1 }
{
    match row {
        Row::Unknown => n + 1,
        _ => n,
    }
}

// Writes the values of the rows; the n-th unknown has the n-th number.
pub fn evaluate(rows: &[Row], numbers: &[u64], values: &mut [u64])
    ensures codes { Evaluates rows.now numbers.now values.new }
    ensures rest { (i : ℕ) → length rows.now ≤ i → slice_index values.new i ≡ slice_index values.old i }
{
    let mut n: usize = 0;
    for (i, row) in rows.iter().enumerate() {
        let v = value(*row, numbers, n, values);
        n = count_with(*row, n);

        // By its index: earlier values are read here, and no proof told what a write through `get_mut` leaves.
        if i < values.len() {
            values[i] = v;
        }
    }
}
