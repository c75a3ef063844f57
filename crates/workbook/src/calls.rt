// The calls that add to an open workbook.
//
// Each takes the workbook, the keeper and the tables; the workbook keeps neither, so that it is plain numbers
// and the caller supplies the slices anew at each call. Granted, it answers the source row count. Refused,
// it leaves everything as it was: a table shorter than its count comes before all else, then the causes
// in the order of their numbers. After a granted call every table is as long as its count.
ghost use Rattle.std.specs.Prelude.{◌≡◌, true, is_ok};
ghost use Rattle.workbook.specs.Pages.{pages_in};
ghost use Rattle.workbook.specs.Held.{SameTables};
ghost use Rattle.workbook.specs.Room.{Long};
ghost use Rattle.workbook.specs.Declare.{declared};
ghost use Rattle.workbook.specs.Feed.{fed};

use crate::book::Open;
use crate::enter::{check_lengths, enter_all};
use crate::tables::Tables;
use keeper::keeper::Keeper;
use refusal::Refusal;
use source::order::{Act, Order};

// Declares a register of so many bits. A refusal tells the source row count.
pub fn declare<K: Keeper>(
    book: &mut Open,
    keeper: &K,
    t: &mut Tables<'_, K::Record>,
    bits: u32,
) -> Result<usize, Refusal>
    ensures outcome { (result, pages_in book.new t.new) ≡ declared (K.whole keeper.now) (pages_in book.old t.old) bits }
    ensures long { is_ok result ≡ true → Long (pages_in book.new t.new) }
    ensures lent { SameTables t.old t.new }
{
    let order = Order {
        place: book.counts().sources,
        act: Act::Declare(bits),
    };
    feed(book, keeper, t, &[order])
}

// Enters the orders of a list in turn and stops at the first that is refused, whose refusal tells its
// place; the orders before it stay.
pub fn feed<K: Keeper>(
    book: &mut Open,
    keeper: &K,
    t: &mut Tables<'_, K::Record>,
    orders: &[Order],
) -> Result<usize, Refusal>
    ensures outcome { (result, pages_in book.new t.new) ≡ fed (K.whole keeper.now) (pages_in book.old t.old) orders.now }
    ensures long { is_ok result ≡ true → Long (pages_in book.new t.new) }
    ensures lent { SameTables t.old t.new }
{
    check_lengths(book, t).map_err(|cause| cause.at(book.counts().sources))?;
    enter_all(book, keeper, t, orders)
}
