// Reading into tables of other lengths than the program's, and the length of a script.
use crate::names::Name;
use crate::read::read;
use refusal::Cause;
use source::order::{Act, Order};
use std::test::Fail;

const TWO: &[u8] =
    b"(set-logic QF_BV)(declare-const x (_ BitVec 4))(declare-fun ab () (_ BitVec 9))(check-sat)";

const USED_ORDER: Order = Order {
    place: 7,
    act: Act::Declare(7),
};

const USED_NAME: Name = Name {
    place: 7,
    after: 7,
    row: 7,
};

const BLANK_ORDER: Order = Order {
    place: 0,
    act: Act::Declare(0),
};

const BLANK_NAME: Name = Name {
    place: 0,
    after: 0,
    row: 0,
};

#[test]
fn fills_both_tables(rt: HostRuntime) {
    let mut orders = [USED_ORDER; 4];
    let mut names = [USED_NAME; 3];
    assert_eq!(rt; read(TWO, &mut orders, &mut names), Ok(2));
    assert_eq!(rt;
        orders,
        [
            Order {
                place: 17,
                act: Act::Declare(4)
            },
            Order {
                place: 47,
                act: Act::Declare(9)
            },
            BLANK_ORDER,
            BLANK_ORDER
        ]
    );
    assert_eq!(rt;
        names,
        [
            Name {
                place: 32,
                after: 33,
                row: 0
            },
            Name {
                place: 60,
                after: 62,
                row: 1
            },
            BLANK_NAME
        ]
    );
}

#[test]
fn uses_short_tables_to_their_ends(rt: HostRuntime) {
    let mut orders = [USED_ORDER; 2];
    let mut names = [USED_NAME; 2];
    assert_eq!(rt;
        read(TWO, &mut orders[0..1], &mut names),
        Err(Cause::Capacity.at(78)),
        "the parenthesis that completes the order"
    );
    assert_eq!(rt; orders, [BLANK_ORDER, USED_ORDER]);
    assert_eq!(rt; names, [BLANK_NAME, BLANK_NAME]);
    assert_eq!(rt;
        read(TWO, &mut orders, &mut names[0..1]),
        Err(Cause::Capacity.at(60)),
        "the name"
    );
    assert_eq!(rt;
        read(TWO, &mut orders[0..0], &mut names[0..0]),
        Err(Cause::Capacity.at(32))
    );
    assert_eq!(rt;
        read(
            b"(set-logic QF_BV)(check-sat)",
            &mut orders[0..0],
            &mut names[0..0]
        ),
        Ok(0)
    );
}

#[test]
fn stops_at_the_limits(rt: HostRuntime) -> Result<(), Fail> {
    let mut orders = [USED_ORDER; 1];
    let mut names = [USED_NAME; 1];
    let mut script = TWO.to_vec(rt.alloc())?;
    script.resize(65536, b' ')?;
    assert_eq!(rt;
        read(&script, &mut orders, &mut names),
        Err(Cause::Capacity.at(60))
    );
    script.push(b' ')?;
    assert_eq!(rt;
        read(&script, &mut orders, &mut names),
        Err(Cause::Capacity.at(65536))
    );
    assert_eq!(rt; orders, [BLANK_ORDER]);
    Ok(())
}
