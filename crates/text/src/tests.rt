// Lines written out by hand.
use crate::line::line;
use crate::refused::write_refusal;
use crate::whole::write_text;
use refusal::Cause;
use std::test::Fail;
use target::table::Target;
use workbook::book::Open;

#[test]
fn refusals(rt: HostRuntime) -> Result<(), Fail> {
    let table = [
        (Cause::Grammar, 0),
        (Cause::Range, 17),
        (Cause::ConstantRange, 16384),
        (Cause::TargetFull, 32768),
        (Cause::Requirement, 9),
        (Cause::Line, 18446744073709551615),
    ];
    let mut out = Vec::new(rt.alloc());
    for (cause, at) in table {
        write_refusal(cause.at(at), &mut out)?;
    }
    let lines =
        b"refused 1 at 0 in text\nrefused 7 at 17 in order\nrefused 7 at 16384 in text\nrefused 9 at 32768 in workbook\nrefused 14 at 9 in model\nrefused 15 at 18446744073709551615 in line\n";
    assert!(rt; out.as_slice() == lines.as_slice());
    Ok(())
}

#[test]
fn empty_target(rt: HostRuntime) {
    let book = Open::begin().seal();
    let target = Target {
        rows: &[],
        assertions: &[],
    };
    let refused = Err(Cause::Line.at(2));
    let mut buffer = [b'.'; 64];
    assert_eq!(rt; line(&book, target, 0, &mut buffer), Ok(19));
    assert!(rt; &buffer[0..21] == b"(set-logic QF_NIA)\n..".as_slice());
    assert_eq!(rt; line(&book, target, 1, &mut buffer), Ok(12));
    assert!(rt; &buffer[0..21] == b"(check-sat)\nF_NIA)\n..".as_slice());
    assert_eq!(rt; line(&book, target, 2, &mut buffer), refused);
    assert_eq!(rt; line(&book, target, 0, &mut buffer[0..63]), refused);
}

#[test]
fn empty_text(rt: HostRuntime) -> Result<(), Fail> {
    let book = Open::begin().seal();
    let target = Target {
        rows: &[],
        assertions: &[],
    };
    let mut out = Vec::new(rt.alloc());
    assert_eq!(rt; write_text(&book, target, &mut out), Ok(()));
    assert!(rt; out.as_slice() == b"(set-logic QF_NIA)\n(check-sat)\n".as_slice());
    Ok(())
}
