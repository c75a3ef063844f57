// A caller of any and-scheme, which knows nothing of it but the interface: two ands in a row, and the and of both
// answers. That its promise is proved shows that the interface says enough for callers to build on.
#![tactic(auto)]

ghost use Rattle.twice.specs.Both.{Outcome};

use refusal::Refusal;
use scheme::cause::check;
use scheme::lemma::Lemma;
use scheme::scheme::Scheme;
use target::row::Row;
use target::table::lay;

// States the lemma, and that the row e is the bitwise and of its row c and the row d, at the same width. Granted, the
// answer is the row that is true exactly when both are so; refused, the table is as it was.
// (Rows are put at an index of the slice that the caller supplies, to which `count` belongs.)
pub fn both<S: Scheme>(
    scheme: &S,
    rows: &mut [Row],
    count: usize,
    lemma: Lemma,
    d: usize,
    e: usize,
) -> Result<usize, Refusal>
    ensures { Outcome (S.Scheme.size scheme.now lemma.k) rows.old rows.new count lemma d e result }
{
    let next = Lemma {
        a: lemma.c,
        b: d,
        c: e,
        ..lemma
    };
    let size = scheme.size_at(lemma.k);
    check(rows, size, count, lemma)?;
    check(rows, 2 * size + 1, count, next)?;
    let first = scheme.state(rows, count, lemma)?;
    let second = scheme.state(rows, count + size, next)?;
    let answer = count + 2 * size;
    let _ = lay(rows, answer, &[Row::And(first, second)]);
    Ok(answer)
}
