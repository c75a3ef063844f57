// How an order is entered: the tests for room, and the writes. The keeper and the tables are parameters beside
// the workbook, which holds neither. Each says that the tables are the slices that were lent: behind a `&mut` only a clause
// does.
ghost use Rattle.std.specs.Prelude.{◌≡◌, ◌≤◌};
ghost use Rattle.workbook.specs.Pages.{pages_in};
ghost use Rattle.workbook.specs.Room.{long_enough, room_for};
ghost use Rattle.workbook.specs.Declare.{with_register, registered, tried};
ghost use Rattle.workbook.specs.Feed.{entered_all};
ghost use Rattle.workbook.specs.Held.{SameTables};

use crate::book::Open;
use crate::tables::Tables;
use keeper::keeper::Keeper;
use refusal::{Cause, Refusal};
use rows::register::append_register;
use source::order::{Act, Order, Sort, Source};
use source::width::Width;
use target::assertion::{Assertion, Kind};

// The limits to which tables are used.
const SOURCES: usize = 1024;

const ROWS: usize = 32768;

const ASSERTIONS: usize = 4096;

// Whether every table is as long as its count, and if not, which kind is shorter.
pub(crate) fn check_lengths<R>(book: &Open, t: &Tables<'_, R>) -> Result<(), Cause>
    ensures { result ≡ long_enough (pages_in book.now t.now) }
{
    let counts = book.counts();
    if t.sources.len() < counts.sources || t.records.len() < counts.sources {
        return Err(Cause::SourcesFull);
    }
    if t.rows.len() < counts.rows || t.assertions.len() < counts.assertions {
        return Err(Cause::TargetFull);
    }
    Ok(())
}

// Whether there is room for one source row with so many target rows and assertions, and if not, which kind is full.
fn check_room<R>(
    book: &Open,
    t: &Tables<'_, R>,
    rows: usize,
    assertions: usize,
) -> Result<(), Cause>
    requires { (rows ≤ 32768) × (assertions ≤ 4096) }
    ensures { result ≡ room_for (pages_in book.now t.now) rows assertions }
{
    let counts = book.counts();
    if counts.sources >= t.sources.len().min(t.records.len()).min(SOURCES) {
        return Err(Cause::SourcesFull);
    }
    if counts.rows + rows > t.rows.len().min(ROWS)
        || counts.assertions + assertions > t.assertions.len().min(ASSERTIONS)
    {
        return Err(Cause::TargetFull);
    }
    Ok(())
}

// Enters a register, for which there is room. Rows are written at the counts, since the tables are slices that the caller
// supplies.
fn put_register<K: Keeper>(book: &mut Open, keeper: &K, t: &mut Tables<'_, K::Record>, width: Width)
    requires { room_for (pages_in book.old t.old) 6 1 ≡ Ok tt }
    ensures pages { pages_in book.new t.new ≡ with_register (K.whole keeper.now) (pages_in book.old t.old) width.bits }
    ensures lent { SameTables t.old t.new }
{
    let counts = book.counts();
    let bits = width.bits();
    t.sources[counts.sources] = Source {
        act: Act::Declare(bits),
        sort: Sort::Bits(bits),
        image: counts.rows,
    };
    t.records[counts.sources] = keeper.anything(width);
    let row = append_register(t.rows, counts.rows, bits).unwrap();
    t.assertions[counts.assertions] = Assertion {
        row,
        source: counts.sources,
        kind: Kind::Range,
    };
    book.advance(6, 1);
}

// Enters a register, or says why not.
fn enter_register<K: Keeper>(
    book: &mut Open,
    keeper: &K,
    t: &mut Tables<'_, K::Record>,
    bits: u32,
) -> Result<(), Cause>
    ensures outcome { (result, pages_in book.new t.new) ≡ registered (K.whole keeper.now) (pages_in book.old t.old) bits }
    ensures lent { SameTables t.old t.new }
{
    let width = Width::new(bits).ok_or(Cause::Range)?;
    check_room(book, t, 6, 1)?;
    put_register(book, keeper, t, width);
    Ok(())
}

// Enters one order, or says why not.
fn enter<K: Keeper>(
    book: &mut Open,
    keeper: &K,
    t: &mut Tables<'_, K::Record>,
    act: Act,
) -> Result<(), Cause>
    ensures outcome { (result, pages_in book.new t.new) ≡ tried (K.whole keeper.now) (pages_in book.old t.old) act }
    ensures lent { SameTables t.old t.new }
{
    match act {
        Act::Declare(bits) => enter_register(book, keeper, t, bits),
        Act::Constant(_, _) | Act::Truth(_) | Act::Apply(_, _, _, _) | Act::Require(_) => Err(
            Cause::NotYet,
        ),
    }
}

// Enters the orders in turn, up to the first that is refused, whose refusal tells its place.
pub(crate) fn enter_all<K: Keeper>(
    book: &mut Open,
    keeper: &K,
    t: &mut Tables<'_, K::Record>,
    orders: &[Order],
) -> Result<usize, Refusal>
    ensures outcome { (result, pages_in book.new t.new) ≡ entered_all (K.whole keeper.now) orders.now (pages_in book.old t.old) }
    ensures lent { SameTables t.old t.new }
{
    for order in orders {
        enter(book, keeper, t, order.act).map_err(|cause| cause.at(order.place))?;
    }
    Ok(book.counts().sources)
}
