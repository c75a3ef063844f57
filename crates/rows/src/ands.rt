// The rows of bvand, bvor and bvxor, with those of an and-scheme between, at an index of the slice that the caller supplies.
ghost use Rattle.rows.specs.Ands.{AndOutcome};

use crate::application::Application;
use crate::limits::has_and;
use crate::operands::Operands;
use crate::register::write_register;
use refusal::{Cause, Refusal};
use scheme::cause::check;
use scheme::lemma::Lemma;
use scheme::scheme::Scheme;
use source::operator::Operator;
use target::row::Row;

// Where bvand, bvor or bvxor stands: the row that is true exactly when the and-unknown is the and, which is the
// scheme's answer, and the image.
#[derive(Clone, Copy, PartialEq, Eq, Debug)]
pub struct Anded {
    pub answer: usize,
    pub image: usize,
}

// Appends all rows of bvand, bvor or bvxor at the index `at`: those of a new and-unknown, which is the row `at` and
// whose range is the row at + 5; those of the scheme, which state that it is the and of both operands; and those of
// the operator. A refusal tells `at`, and then nothing is written. (Operator and operands stand side by side: the call takes every
// pair of them, and an `Application` is one that was tested.)
#[tactic(auto, using(crate::proofs::AndCalls::told_room))]
pub fn append_and<S: Scheme>(
    scheme: &S,
    rows: &mut [Row],
    at: usize,
    op: Operator,
    o: Operands,
) -> Result<Anded, Refusal>
    ensures { AndOutcome (S.Scheme.size scheme.now o.k) (S.Scheme.adds scheme.now) op o rows.old rows.new at result }
{
    if !has_and(op) {
        return Err(Cause::Range.at(at));
    }
    let order = Application::new(op, o).ok_or(Cause::Range.at(at))?;
    let size = scheme.size_at(o.k);

    // The row `at` is not there yet, so the and-unknown's place is held by the first operand.
    let lemma = Lemma {
        k: o.k,
        a: o.a,
        b: o.b,
        c: o.a,
    };
    check(rows, 6 + size + order.count(), at, lemma)?;
    write_register(rows, at, order.size());
    let answer = scheme.state(rows, at + 6, Lemma { c: at, ..lemma })?;
    let image = order.with_third(at).put(rows, at + (6 + size));
    Ok(Anded { answer, image })
}
