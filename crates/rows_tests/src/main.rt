// Prints the rows of every operator at widths 1, 4 and 32, with several bounds, and those of bvand, bvor and bvxor
// with both and-schemes. The expected output is made by tests/rows.py, from the table of rows and not from this code.
#![tactic(auto)]

mod cases;

use cases::{Case, KNOWN, Known, OPERATORS};
use rows::ands::append_and;
use rows::count::{assertion_count, row_count};
use rows::order::append;
use rows::register::{append_register, append_value};
use scheme::bitwise::Bitwise;
use scheme::scheme::Scheme;
use scheme::sum::Sum;
use source::operator::Operator;
use source::value::Value;
use std::io;
use target::row::Row;

// The index of the first row that is written.
const AT: usize = 8;

// Eight unknowns are in use.
fn table() -> [Row; 512] {
    let mut rows = [Row::Truth(false); 512];
    rows[..AT].fill(Row::Unknown);
    rows
}

fn show(rt: &HostRuntime, rows: &[Row], count: usize) -> io::Result<()> {
    for row in rows.iter().skip(AT).take(count) {
        println!(rt; "{row:?}")?;
    }
    Ok(())
}

// The rows of an operator, and its image.
fn show_order(rt: &HostRuntime, case: Case) -> io::Result<()> {
    let mut rows = table();
    let Case { op, k, known } = case;
    let o = case.operands();
    let bounds = u8::from(known);
    let assertions = assertion_count(op);
    println!(rt; "{op:?} of {k} bits, bounds {bounds}, {assertions} assertions")?;
    match append(&mut rows, AT, op, o) {
        Some(image) => {
            let count = row_count(op, o, 0).unwrap_or(0);
            println!(rt; "{count} rows, image {image}")?;
            show(rt, &rows, count.saturating_add(1))
        }
        None => println!(rt; "no rows"),
    }
}

// The rows of bvand, bvor or bvxor with a scheme.
fn show_and<S: Scheme>(rt: &HostRuntime, scheme: &S, name: &str, case: Case) -> io::Result<()> {
    let mut rows = table();
    let Case { op, k, .. } = case;
    let o = case.operands();
    let count = row_count(op, o, scheme.size_at(k)).unwrap_or(0);
    println!(rt; "{op:?} of {k} bits by {name}")?;
    match append_and(scheme, &mut rows, AT, op, o) {
        Ok(anded) => {
            let answer = anded.answer;
            let image = anded.image;
            println!(rt; "{count} rows, answer {answer}, image {image}")?;
            show(rt, &rows, count)
        }
        Err(refusal) => println!(rt; "{refusal:?}"),
    }
}

fn show_ands(rt: &HostRuntime, op: Operator) -> io::Result<()> {
    for k in [1u32, 4, 32, 33] {
        let case = Case {
            op,
            k,
            known: Known::Nothing,
        };
        show_and(rt, &Sum, "sum", case)?;
        show_and(rt, &Bitwise, "bitwise", case)?;
    }
    Ok(())
}

// A register, a constant and a truth value.
fn show_others(rt: &HostRuntime) -> io::Result<()> {
    for k in [0u32, 1, 4, 32, 33] {
        let mut rows = table();
        let granted = append_register(&mut rows, AT, k).is_some();
        println!(rt; "register of {k} bits {granted}")?;
        show(rt, &rows, 7)?;
    }
    for v in [
        Value::Bits(4, 9),
        Value::Bits(32, 4294967295),
        Value::Bool(true),
        Value::Bool(false),
    ] {
        let mut rows = table();
        let granted = append_value(&mut rows, AT, v).is_some();
        println!(rt; "value {granted}")?;
        show(rt, &rows, 2)?;
    }
    Ok(())
}

fn main(rt: HostRuntime) -> io::Result<()> {
    show_others(&rt)?;
    for op in OPERATORS {
        for k in [1u32, 4, 32] {
            for known in KNOWN {
                show_order(&rt, Case { op, k, known })?;
            }
        }
    }
    for op in [
        Operator::BvAnd,
        Operator::BvOr,
        Operator::BvXor,
        Operator::BvAdd,
    ] {
        show_ands(&rt, op)?;
    }
    Ok(())
}
