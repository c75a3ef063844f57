// The calls on small tables: the example's rows, and every cause with its number.
use crate::book::Open;
use crate::calls::{declare, feed};
use crate::counts::Counts;
use crate::tables::Tables;
use keeper::interval::Interval;
use keeper::plain::{Plain, PlainRecord};
use keeper::record::IntervalRecord;
use refusal::{Cause, Refusal};
use source::order::{Act, Order, Sort, Source};
use std::test::Fail;
use target::assertion::{Assertion, Kind};
use target::row::Row;

const SOURCE: Source = Source {
    act: Act::Declare(0),
    sort: Sort::Bool,
    image: 0,
};

const RECORD: PlainRecord = PlainRecord { width: 0 };

const ASSERTION: Assertion = Assertion {
    row: 0,
    source: 0,
    kind: Kind::Requirement,
};

// What one declaration of 4 bits leaves in tables that are longer than it needs.
#[test]
fn declares_four_bits(rt: HostRuntime) {
    let mut sources = [SOURCE; 2];
    let mut records = [RECORD; 2];
    let mut rows = [Row::Truth(false); 8];
    let mut assertions = [ASSERTION; 2];
    let mut book = Open::begin();
    let mut t = Tables {
        sources: &mut sources,
        records: &mut records,
        rows: &mut rows,
        assertions: &mut assertions,
    };
    assert_eq!(rt; declare(&mut book, &Plain, &mut t, 4), Ok(1));
    assert_eq!(rt;
        rows,
        [
            Row::Unknown,
            Row::Number(0),
            Row::Number(16),
            Row::AtMost(1, 0),
            Row::Less(0, 2),
            Row::And(3, 4),
            Row::Truth(false),
            Row::Truth(false),
        ]
    );
    assert_eq!(rt;
        assertions,
        [
            Assertion {
                row: 5,
                source: 0,
                kind: Kind::Range
            },
            ASSERTION
        ]
    );
    assert_eq!(rt;
        sources,
        [
            Source {
                act: Act::Declare(4),
                sort: Sort::Bits(4),
                image: 0
            },
            SOURCE
        ]
    );
    assert_eq!(rt; records, [PlainRecord { width: 4 }, RECORD]);
}

// Declares `bits` after 4 bits, on tables of these lengths.
fn second(
    sources: usize,
    records: usize,
    rows: usize,
    assertions: usize,
    bits: u32,
) -> Result<usize, Refusal> {
    let mut source_table = [SOURCE; 4];
    let mut record_table = [RECORD; 4];
    let mut row_table = [Row::Truth(false); 16];
    let mut assertion_table = [ASSERTION; 4];
    let mut book = Open::begin();
    let mut all = Tables {
        sources: &mut source_table,
        records: &mut record_table,
        rows: &mut row_table,
        assertions: &mut assertion_table,
    };
    let _ = declare(&mut book, &Plain, &mut all, 4);
    let mut t = Tables {
        sources: &mut source_table[0..sources.min(4)],
        records: &mut record_table[0..records.min(4)],
        rows: &mut row_table[0..rows.min(16)],
        assertions: &mut assertion_table[0..assertions.min(4)],
    };
    declare(&mut book, &Plain, &mut t, bits)
}

#[test]
fn refuses_a_second(rt: HostRuntime) {
    assert_eq!(rt; second(2, 2, 12, 2, 32), Ok(2));
    assert_eq!(rt; second(2, 2, 12, 2, 0), Err(Cause::Range.at(1)));
    assert_eq!(rt; second(1, 1, 6, 1, 33), Err(Cause::Range.at(1)));
    assert_eq!(rt; second(1, 2, 11, 1, 8), Err(Cause::SourcesFull.at(1)));
    assert_eq!(rt; second(2, 1, 12, 2, 8), Err(Cause::SourcesFull.at(1)));
    assert_eq!(rt; second(2, 2, 11, 2, 8), Err(Cause::TargetFull.at(1)));
    assert_eq!(rt;
        second(2, 2, 12, 1, 8),
        Err(Cause::TargetFull.at(1)),
        "short tables come before a bad width"
    );
    assert_eq!(rt; second(0, 2, 12, 2, 0), Err(Cause::SourcesFull.at(1)));
    assert_eq!(rt; second(2, 0, 5, 2, 0), Err(Cause::SourcesFull.at(1)));
    assert_eq!(rt; second(2, 2, 5, 2, 0), Err(Cause::TargetFull.at(1)));
    assert_eq!(rt; second(2, 2, 12, 0, 99), Err(Cause::TargetFull.at(1)));
}

// A feed stops at the first refusal, and the orders before it stay.
#[test]
fn feeds_up_to_a_refusal(rt: HostRuntime) {
    let mut sources = [SOURCE; 3];
    let mut records = [IntervalRecord {
        width: 1,
        lo: 0,
        hi: 0,
    }; 3];
    let mut rows = [Row::Truth(false); 18];
    let mut assertions = [ASSERTION; 3];
    let mut book = Open::begin();
    let orders = [(10, 1), (20, 33), (30, 2)].map(|(place, bits)| Order {
        place,
        act: Act::Declare(bits),
    });
    let mut t = Tables {
        sources: &mut sources,
        records: &mut records,
        rows: &mut rows,
        assertions: &mut assertions,
    };
    assert_eq!(rt;
        feed(&mut book, &Interval, &mut t, &orders),
        Err(Cause::Range.at(20))
    );
    assert_eq!(rt;
        book.counts(),
        Counts {
            sources: 1,
            rows: 6,
            assertions: 1
        }
    );
    assert_eq!(rt; feed(&mut book, &Interval, &mut t, &orders[2..3]), Ok(2));
    assert_eq!(rt;
        book.seal().counts(),
        Counts {
            sources: 2,
            rows: 12,
            assertions: 2
        }
    );
}

// Tables longer than the limits are used to their limits: 1,024 source rows.
#[test]
fn stops_at_the_limit(rt: HostRuntime) -> Result<(), Fail> {
    let mut sources = vec![in rt.alloc(); SOURCE; 1030]?;
    let mut records = vec![in rt.alloc(); RECORD; 1030]?;
    let mut rows = vec![in rt.alloc(); Row::Truth(false); 7000]?;
    let mut assertions = vec![in rt.alloc(); ASSERTION; 1030]?;
    let mut book = Open::begin();
    let mut t = Tables {
        sources: &mut sources,
        records: &mut records,
        rows: &mut rows,
        assertions: &mut assertions,
    };
    for i in 0..1024usize {
        assert_eq!(rt; declare(&mut book, &Plain, &mut t, 32), Ok(i + 1));
    }
    assert_eq!(rt;
        declare(&mut book, &Plain, &mut t, 32),
        Err(Cause::SourcesFull.at(1024))
    );
    Ok(())
}
