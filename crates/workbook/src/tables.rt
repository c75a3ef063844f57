// The tables that a caller supplies.
use source::order::Source;
use target::assertion::Assertion;
use target::row::Row;

// Source rows, the keeper's record of each, target rows and assertions. Of a table longer than its limit
// (1,024 source rows and records, 32,768 target rows, 4,096 assertions) only the limit is used. The records lie
// in a slice of their own, since their type is the keeper's and the caller supplies each table.
#[derive(Drop)]
pub struct Tables<'a, R> {
    pub sources: &'a mut [Source],
    pub records: &'a mut [R],
    pub rows: &'a mut [Row],
    pub assertions: &'a mut [Assertion],
}
