// The lines of the text. Each has a definition of its own; what they share is the draft, one for all lines of a text. (No
// `write!`: draft.rt says why.)
ghost use Rattle.std.specs.Prelude.{◌≡◌, true, false, Some, None, is_some, if◌then◌else◌, nat_lt};
ghost use Rattle.text.specs.Lines.{declared_line, defined_line, assert_line, named_by, line_of, line_count};

use crate::draft::Draft;
use target::row::{Row, Sort};
use target::table::Target;

#[tactic(auto, using(crate::proofs::Pieces::pieces))]
fn declare(draft: &mut Draft, i: usize)
    ensures { draft.new ≡ declared_line i }
{
    draft.clear();
    draft.text("(declare-fun t");
    draft.number(i);
    draft.text(" () Int)\n");
}

#[tactic(auto, using(crate::proofs::Pieces::pieces))]
fn define(draft: &mut Draft, i: usize, row: Row)
    ensures { draft.new ≡ defined_line i row }
{
    draft.clear();
    draft.text("(define-fun t");
    draft.number(i);
    match row.sort() {
        Sort::Int => draft.text(" () Int "),
        Sort::Bool => draft.text(" () Bool "),
    }
    draft.body(row);
    draft.text(")\n");
}

#[tactic(auto, using(crate::proofs::Pieces::pieces))]
fn assert(draft: &mut Draft, row: usize)
    ensures { draft.new ≡ assert_line row }
{
    draft.clear();
    draft.text("(assert t");
    draft.number(row);
    draft.text(")\n");
}

// Makes the draft line `n` of the text of these rows and assertions, where there is one, and else leaves it as it was.
#[tactic(auto, using(crate::proofs::Places::places))]
pub(crate) fn draw(draft: &mut Draft, target: Target<'_>, n: usize) -> Option<()>
    ensures any { result ≡ (if nat_lt n (line_count target.entry.rows.now (named_by target.entry.assertions.now)) then Some tt else None) }
    ensures spared { is_some result ≡ false → draft.new ≡ draft.old }
    ensures line { is_some result ≡ true → draft.new ≡ line_of target.entry.rows.now (named_by target.entry.assertions.now) n }
{
    let Target { rows, assertions } = target;
    let Some(i) = n.checked_sub(1) else {
        draft.clear();
        draft.text("(set-logic QF_NIA)\n");
        return Some(());
    };
    if let Some(row) = rows.get(i) {
        match *row {
            Row::Unknown => declare(draft, i),
            row => define(draft, i, row),
        }
        return Some(());
    }
    let j = i - rows.len();
    if let Some(assertion) = assertions.get(j) {
        assert(draft, assertion.row);
        return Some(());
    }
    if j == assertions.len() {
        draft.clear();
        draft.text("(check-sat)\n");
        return Some(());
    }
    None
}
