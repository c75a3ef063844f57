// Why an and-scheme refuses.
ghost use Rattle.std.specs.Prelude.{◌+◌, ◌≤◌, min, length, OnOk};
ghost use Rattle.scheme.specs.Refusing.{Checked};

use crate::lemma::Lemma;
use refusal::{Cause, Refusal};
use target::row::{Row, Sort};

// Refuses for the first cause there is, for a scheme that would add `size` rows. (The operands are tested by name, not
// as a list: a closure over one would need a clause for each test.)
pub fn check(rows: &[Row], size: usize, count: usize, lemma: Lemma) -> Result<(), Refusal>
    ensures first { Checked size rows.now count lemma result }

    // Where it does not refuse, the rows fit.
    ensures room { OnOk result (count + size ≤ min (length rows.now) 32768) }
{
    if rows.len() < count {
        return Err(Cause::TargetFull.at(count));
    }
    if lemma.a >= count || lemma.b >= count || lemma.c >= count {
        return Err(Cause::Operand.at(count));
    }
    if rows[lemma.a].sort() == Sort::Bool
        || rows[lemma.b].sort() == Sort::Bool
        || rows[lemma.c].sort() == Sort::Bool
    {
        return Err(Cause::Sort.at(count));
    }
    if lemma.k < 1 || lemma.k > 32 {
        return Err(Cause::Range.at(count));
    }
    let limit = rows.len().min(32768);
    if limit < count || limit - count < size {
        return Err(Cause::TargetFull.at(count));
    }
    Ok(())
}
