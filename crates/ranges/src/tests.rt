// A small table, by both keepers.
use crate::entry::Entry;
use crate::fill::fill;
use crate::limit::{spread, stays_below};
use keeper::interval::Interval;
use keeper::keeper::Keeper;
use keeper::plain::Plain;
use source::operator::Operator;
use source::width::Width;

// The ends of the record of the last of three rows: 100, any number, and 100 shifted by it.
fn shifted<K: Keeper>(keeper: &K, width: Width, records: &mut [K::Record]) -> Option<(u64, u64)> {
    let entries = [
        Entry::Number(width, 100),
        Entry::Any(width),
        Entry::Applied(Operator::BvLshr, width, 0, 1, 0),
    ];
    fill(keeper, &entries, records);
    records
        .get(2)
        .map(|last| (keeper.least(*last), keeper.most(*last)))
}

#[test]
fn follows_rows(rt: HostRuntime) {
    let eight = Width::new(8).unwrap();
    assert_eq!(rt;
        shifted(&Interval, eight, &mut [Interval.anything(eight); 3]),
        Some((0, 100))
    );
    assert_eq!(rt;
        shifted(&Plain, eight, &mut [Plain.anything(eight); 3]),
        Some((0, 255))
    );
    assert_eq!(rt;
        shifted(&Plain, eight, &mut [Plain.anything(eight); 2]),
        None
    );
}

#[test]
fn knows_limits(rt: HostRuntime) {
    let eight = Width::new(8).unwrap();
    let r = Interval.exactly(eight, 7);
    assert!(rt; stays_below(&Interval, r, 8) && !stays_below(&Interval, r, 7));
    assert_eq!(rt;
        (
            spread(&Interval, r),
            spread(&Interval, Interval.anything(eight))
        ),
        (0, 255)
    );
}
