// Ends of intervals worked by hand, and those of the plain keeper.
use crate::interval::Interval;
use crate::keeper::Keeper;
use crate::plain::Plain;
use crate::record::IntervalRecord;
use source::operator::Operator;
use source::width::Width;

type Ends = (u64, u64);

fn ends_of<K: Keeper>(keeper: &K, r: K::Record) -> Ends {
    (keeper.least(r), keeper.most(r))
}

// The ends of what an operator makes of intervals of 8 bits.
fn ends(op: Operator, bits: u32, a: Ends, b: Ends, c: Ends) -> Option<Ends> {
    let eight = Width::new(8)?;
    let width = Width::new(bits)?;
    let [a, b, c] = [a, b, c].map(|(lo, hi)| IntervalRecord::between(eight, lo, hi));
    Some(ends_of(&Interval, Interval.made(op, width, a, b, c)))
}

// The ends of the sum of two constants of 8 bits.
fn sum_of_constants(m: u64, n: u64) -> Option<Ends> {
    let eight = Width::new(8)?;
    let a = Interval.exactly(eight, m);
    let b = Interval.exactly(eight, n);
    let r = Interval.made(Operator::BvAdd, eight, a, b, Interval.anything(eight));
    Some(ends_of(&Interval, r))
}

#[test]
fn adds_constants_up_to_the_largest_number(rt: HostRuntime) {
    assert_eq!(rt; sum_of_constants(200, 55), Some((255, 255)));
    assert_eq!(rt; sum_of_constants(200, 56), Some((0, 255)));
    assert_eq!(rt; sum_of_constants(256, 0), Some((0, 255)));
}

#[test]
fn follows_the_rules(rt: HostRuntime) {
    for (op, a, b, expected) in [
        (Operator::BvAdd, (10, 20), (1, 5), (11, 25)),
        (Operator::BvSub, (30, 40), (20, 30), (0, 20)),
        (Operator::BvSub, (29, 40), (20, 30), (0, 255)),
        (Operator::BvAnd, (16, 100), (3, 9), (0, 9)),
        (Operator::BvLshr, (16, 100), (2, 3), (0, 100)),
        (Operator::BvUrem, (16, 100), (5, 7), (0, 100)),
        (Operator::BvMul, (2, 3), (2, 3), (0, 255)),
    ] {
        assert_eq!(rt; ends(op, 8, a, b, (0, 0)), Some(expected));
    }
}

// Bits 5 to 2: 17 is 4 times 4 and 1, 59 is 14 times 4 and 3, and 64 needs bit 6.
#[test]
fn extracts_and_chooses(rt: HostRuntime) {
    let cut = Operator::Extract(5, 2);
    assert_eq!(rt; ends(cut, 4, (17, 59), (0, 0), (0, 0)), Some((4, 14)));
    assert_eq!(rt; ends(cut, 4, (17, 64), (0, 0), (0, 0)), Some((0, 15)));
    assert_eq!(rt;
        ends(Operator::Ite, 8, (0, 1), (5, 9), (7, 30)),
        Some((5, 30))
    );
}

fn plain_ends(bits: u32) -> Option<Ends> {
    Some(ends_of(&Plain, Plain.exactly(Width::new(bits)?, 1)))
}

#[test]
fn plain_knows_widths(rt: HostRuntime) {
    assert_eq!(rt; plain_ends(1), Some((0, 1)));
    assert_eq!(rt; plain_ends(32), Some((0, 4_294_967_295)));
}
