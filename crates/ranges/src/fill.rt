// The records of a table's rows.
ghost use Rattle.std.specs.Prelude.{◌≡◌, ℕ, ◌<◌, List, length, take, slice_index_or, slice_set};
ghost use Rattle.source.specs.declared.value.Value.{Value};
ghost use Rattle.keeper.specs.Descriptions.{Describes};
ghost use Rattle.ranges.specs.Filled.{record_at, record_of, filled};
ghost use Rattle.ranges.specs.Meaning.{value_at, Rows};

use crate::entry::Entry;
use keeper::keeper::Keeper;
use source::width::Width;

// The record of an operand. A row that does not stand before this one may be anything.
fn record_at<K: Keeper>(keeper: &K, before: &[K::Record], width: Width, at: usize) -> K::Record
    ensures { result ≡ record_at (K.whole keeper.now) before.now width.bits at }
{
    before
        .get(at)
        .copied()
        .unwrap_or_else(|| keeper.anything(width))
}

// The record of a row, from the records of those before it.
pub fn record_of<K: Keeper>(keeper: &K, before: &[K::Record], entry: Entry) -> K::Record
    ensures { result ≡ record_of (K.whole keeper.now) (K.exact keeper.now) (K.makes keeper.now) before.now entry }
{
    match entry {
        Entry::Any(width) => keeper.anything(width),
        Entry::Number(width, n) => keeper.exactly(width, n),
        Entry::Applied(op, width, a, b, c) => {
            let operand = |at| record_at(keeper, before, width, at);
            keeper.made(op, width, operand(a), operand(b), operand(c))
        }
    }
}

// Writes the record of row i at its place, if there is room.
// The place is told by its index: a record is made from those before it, which a loop over the records would lend out.
fn put<K: Keeper>(keeper: &K, entry: Entry, i: usize, records: &mut [K::Record])
    ensures { records.new ≡ slice_set records.old i (record_of (K.whole keeper.now) (K.exact keeper.now) (K.makes keeper.now) (take i records.old) entry) }
{
    if i < records.len() {
        records[i] = record_of(keeper, &records[..i], entry);
    }
}

// Writes the record of each row at its place, as far as there is room.
pub fn fill<K: Keeper>(keeper: &K, entries: &[Entry], records: &mut [K::Record])
    ensures outcome { records.new ≡ filled (K.whole keeper.now) (K.exact keeper.now) (K.makes keeper.now) 0 entries.now records.old }
    ensures sound { (vs : List Value) → Rows vs 0 entries.now → (j : ℕ) (d : K.Record) → j < length entries.now → j < length records.old → Describes (K.bears keeper.now) (K.holds keeper.now) (slice_index_or records.new j d) (value_at vs j) }
{
    for (i, entry) in entries.iter().enumerate() {
        put(keeper, *entry, i, records);
    }
}
