// A script translated on supplied tables.
ghost use Rattle.std.specs.Prelude.{◌≡◌, length};
ghost use Rattle.script.specs.Reading.{blank_order, blank_name, padded, orders_left, names_left};
ghost use Rattle.workbook.specs.Held.{SameTables};
ghost use Rattle.workbook.specs.Pages.{pages_at, nothing_used};
ghost use Rattle.translate.specs.Translation.{read_for, translation, Left};

use keeper::keeper::Keeper;
use refusal::Refusal;
use script::names::Name;
use script::read::read;
use source::order::Order;
use workbook::book::{Open, Sealed};
use workbook::calls::feed;
use workbook::tables::Tables;

// Reads a script into the order table and the name table, and enters its orders into a workbook that is
// begun on the other tables; granted, the workbook is sealed.
pub fn translate<K: Keeper>(
    script: &[u8],
    orders: &mut [Order],
    names: &mut [Name],
    keeper: &K,
    t: &mut Tables<'_, K::Record>,
) -> Result<Sealed, Refusal>
    ensures outcome { Left (translation (K.whole keeper.now) (length orders.old) (length names.old) script.now (pages_at nothing_used t.old)) result t.new }
    ensures order_table { orders.new ≡ padded (length orders.old) blank_order (orders_left (read_for (length orders.old) (length names.old) script.now)) }
    ensures name_table { names.new ≡ padded (length names.old) blank_name (names_left (read_for (length orders.old) (length names.old) script.now)) }
    ensures lent { SameTables t.old t.new }
{
    let count = read(script, orders, names)?;
    let mut book = Open::begin();
    feed(&mut book, keeper, t, &orders[0..count])?;
    Ok(book.seal())
}
