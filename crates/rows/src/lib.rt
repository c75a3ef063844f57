// The target rows of every order.
//
// An order of the source, a register, a constant or an operator on earlier rows, becomes a fixed list of target
// rows. specs/Rows.antt is that list, a case for each operator; specs/Law.antt says what it is good for: the image,
// one of the rows, has the SMT-LIB value of the order under every reading and whatever the unknowns are. Where rows
// are left out, because bounds on the operands show that they would change nothing, the value is the same. The rows
// are sound wherever the operands are earlier rows of the right sorts, they add no unknown but the register's and
// the and-unknown, and they change no earlier value.
//
// The calls here append exactly those rows at an index of a table and write nothing else. They take every input:
// where there is no room or an argument is outside its limits, they say so and leave the table as it was.
#![tactic(auto)]

pub mod ands;
mod application;
pub mod count;
pub mod limits;
pub mod operands;
pub mod order;
mod power;
mod put;
pub mod register;
mod shift;
mod write;
