// The line that states a refusal.
// (It is put into a draft, and not printed by `write!`: draft.rt says why.)
ghost use Rattle.std.specs.Prelude.{◌≡◌, ◌+◌, ◌≤◌, true, ◌++◌, length, is_ok, if◌then◌else◌, vec_len, vec_capacity};
ghost use Rattle.text.specs.Refused.{refusal_line};

use crate::draft::Draft;
use refusal::Refusal;
use std::alloc::AllocError;

#[tactic(auto, using(crate::proofs::Pieces::pieces))]
fn refuse(draft: &mut Draft, refusal: Refusal)
    ensures { draft.new ≡ refusal_line refusal }
{
    let number = u8::from(refusal.cause);
    draft.clear();
    draft.text("refused ");
    draft.number(usize::from(number));
    draft.text(" at ");
    draft.number(refusal.at);
    draft.text(" in ");
    draft.text(refusal.cause.layer().word());
    draft.text("\n");
}

// Appends the refusal's line to `out`, which is as it was where memory runs out.
pub fn write_refusal(refusal: Refusal, out: &mut Vec<u8>) -> Result<(), AllocError>
    ensures outcome { out.new.items ≡ (if is_ok result then out.old.items ++ refusal_line refusal else out.old.items) }
    ensures enough { vec_len out.old + length (refusal_line refusal) ≤ vec_capacity out.old → is_ok result ≡ true }
{
    let mut line = Draft::new();
    refuse(&mut line, refusal);
    out.extend_from_slice(line.bytes())
}
