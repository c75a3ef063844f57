// The reader: a script becomes orders and names.
//
// Two tables go from call to call, and no struct around both: with one, the proof loses what the slices hold at its end
// (tried).
ghost use Rattle.std.specs.Prelude.{◌≡◌, length, replicate};
ghost use Rattle.script.specs.Tokens.{token_at};
ghost use Rattle.script.specs.Steps.{is_close, is_end, accept, and_then};
ghost use Rattle.script.specs.Reading.{text_in, reading, prologue_at, blank_order, blank_name, padded, answer_of, orders_left, names_left};
ghost use Rattle.script.specs.Law.{Grammatical};
ghost use Rattle.script.specs.Filled.{reading_for, commands_for, room_of, Filled, Empty, Same};

use crate::command::Keyword;
use crate::names::Name;
use crate::steps::Reader;
use crate::table::Table;
use crate::token::Span;
use refusal::{Cause, Refusal};
use source::order::{Act, Order};

const SCRIPT_LIMIT: usize = 65536;

const ORDER_LIMIT: usize = 1024;

const NAME_LIMIT: usize = 256;

// the blank rows of both tables
pub const BLANK_ORDER: Order = Order {
    place: 0,
    act: Act::Declare(0),
};

pub const BLANK_NAME: Name = Name {
    place: 0,
    after: 0,
    row: 0,
};

impl Reader<'_> {
    // ( set-logic QF_BV )
    fn prologue(&mut self) -> Result<(), Refusal>
        ensures value { and_then result (λ u. Ok self.new.pos) ≡ prologue_at (token_at self.old.script.now) (text_in self.old.script.now) self.old.pos }
        ensures script { self.new.script ≡ self.old.script }
    {
        self.open()?;
        self.word(b"set-logic")?;
        self.word(b"QF_BV")?;
        self.close()?;
        Ok(())
    }

    // What follows the word check-sat: a parenthesis and the end.
    fn finish(&mut self) -> Result<Span, Refusal>
        ensures { result ≡ and_then (accept is_close (token_at self.old.script.now self.old.pos)) (λ c. accept is_end (token_at self.old.script.now c.after)) }
    {
        self.close()?;
        self.end()
    }

    // The commands from here on, into tables that are empty. The count of orders and the count of names are
    // kept apart, since a command may add an order and no name.
    // A loop, since the script itself says where it ends; each turn moves the reader.
    fn commands(
        &mut self,
        orders: &mut Table<Order>,
        names: &mut Table<Name>,
    ) -> Result<usize, Refusal>
        requires orders { Empty blank_order orders.old orders.old }
        requires names { Empty blank_name names.old names.old }
        ensures answer { result ≡ answer_of (commands_for orders.old names.old self.old.script.now self.old.pos) }
        ensures tables { Filled (commands_for orders.old names.old self.old.script.now self.old.pos) orders.new.rows.now names.new.rows.now }
        ensures orders { Same orders.old orders.new }
        ensures names { Same names.old names.new }
    {
        loop {
            let first = self.open()?;
            let command = self.keyword()?;
            match command {
                Keyword::CheckSat => {
                    self.finish()?;
                    return Ok(orders.used);
                }
                Keyword::Declare(form) => {
                    let register = self.declaration(names, form)?;
                    if orders.is_full() {
                        return Err(Cause::Capacity.at(register.close.place));
                    }
                    names.push(Name {
                        place: register.name.place,
                        after: register.name.after,
                        row: orders.used,
                    });
                    orders.push(Order {
                        place: first.place,
                        act: Act::Declare(register.width),
                    });
                }
            }
        }
    }
}

// A script, read into tables that are empty.
fn attempt(
    script: &[u8],
    orders: &mut Table<Order>,
    names: &mut Table<Name>,
) -> Result<usize, Refusal>
    requires orders { Empty blank_order orders.old orders.old }
    requires names { Empty blank_name names.old names.old }
    ensures answer { result ≡ answer_of (reading (room_of orders.old) (room_of names.old) script.now) }
    ensures tables { Filled (reading (room_of orders.old) (room_of names.old) script.now) orders.new.rows.now names.new.rows.now }
    ensures orders { Same orders.old orders.new }
    ensures names { Same names.old names.new }
{
    if script.len() > SCRIPT_LIMIT {
        return Err(Cause::Capacity.at(SCRIPT_LIMIT));
    }
    let mut reader = Reader { script, pos: 0 };
    reader.prologue()?;
    reader.commands(orders, names)
}

// A script, read into tables that may hold anything: they are blanked first, and again at a refusal.
fn read_anew(
    script: &[u8],
    orders: &mut Table<Order>,
    names: &mut Table<Name>,
) -> Result<usize, Refusal>
    ensures answer { result ≡ answer_of (reading (room_of orders.old) (room_of names.old) script.now) }
    ensures orders { orders.new.rows.now ≡ padded (length orders.old.rows.now) blank_order (orders_left (reading (room_of orders.old) (room_of names.old) script.now)) }
    ensures names { names.new.rows.now ≡ padded (length names.old.rows.now) blank_name (names_left (reading (room_of orders.old) (room_of names.old) script.now)) }
    ensures lent_orders { orders.new.rows.ghost_name ≡ orders.old.rows.ghost_name }
    ensures lent_names { names.new.rows.ghost_name ≡ names.old.rows.ghost_name }
{
    orders.clear(BLANK_ORDER);
    names.clear(BLANK_NAME);
    let answer = attempt(script, orders, names);
    if answer.is_err() {
        orders.clear(BLANK_ORDER); // what was read up to the refusal goes
        names.clear(BLANK_NAME); // and so do its names
    }
    answer
}

// A script, read into these slices as far as the limits go. It is apart from `read`, whose clause on the grammar
// follows from these three.
fn read_over(script: &[u8], orders: &mut [Order], names: &mut [Name]) -> Result<usize, Refusal>
    ensures answer { result ≡ answer_of (reading_for orders.old names.old script.now) }
    ensures orders { orders.new ≡ padded (length orders.old) blank_order (orders_left (reading_for orders.old names.old script.now)) }
    ensures names { names.new ≡ padded (length names.old) blank_name (names_left (reading_for orders.old names.old script.now)) }
{
    read_anew(
        script,
        &mut Table::new(orders, ORDER_LIMIT),
        &mut Table::new(names, NAME_LIMIT),
    )
}

// Reads a script. The order table then holds its orders and the name table its names, each blank after
// them, and the answer is how many orders there are. At a refusal both tables are blank. It is granted
// exactly when its tokens spell a script of the grammar.
pub fn read(script: &[u8], orders: &mut [Order], names: &mut [Name]) -> Result<usize, Refusal>
    ensures answer { result ≡ answer_of (reading_for orders.old names.old script.now) }
    ensures orders { orders.new ≡ padded (length orders.old) blank_order (orders_left (reading_for orders.old names.old script.now)) }
    ensures names { names.new ≡ padded (length names.old) blank_name (names_left (reading_for orders.old names.old script.now)) }
    ensures grammar { Grammatical script.now (length orders.old) (length names.old) result orders.new names.new }
{
    read_over(script, orders, names)
}
