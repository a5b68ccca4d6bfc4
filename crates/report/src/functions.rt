// What keeps the output lines from adding up to a function.
use crate::symbols::{names_product, names_share_b, say_symbols};
use console::saying::note;
use limits::MAX_SHARES;
use record_tests::functions::function_record;
use records::sums::{Sum, added, sum_of_outers};
use std::fmt;

#[derive(Clone, Copy)]
enum Function {
    Product,
    Sum,
    Copy,
}

const FUNCTIONS: [Function; 3] = [Function::Product, Function::Sum, Function::Copy];

impl Function {
    // The function check knows it by this number.
    fn number(self) -> usize {
        match self {
            Function::Product => 1,
            Function::Sum => 2,
            Function::Copy => 3,
        }
    }
}

impl fmt::Display for Function {
    fn fmt<W: fmt::Write>(&self, f: &mut fmt::Formatter<W>) -> fmt::Result {
        match self {
            Function::Product => write!(f, "the product of a and b"),
            Function::Sum => write!(f, "the sum of a and b"),
            Function::Copy => write!(f, "a copy of a"),
        }
    }
}

// Says that a table computes none of the three functions, and in which symbols it differs from the one that was probably meant.
pub fn explain(notes: &impl Print, table: &[u8], shares: usize, masks: usize) {
    if MAX_SHARES < shares {
        return;
    }
    if FUNCTIONS
        .iter()
        .any(|function| computes(table, shares, masks, *function))
    {
        return;
    }
    let sum = sum_of_outers(table);
    let function = meant(sum);
    note(
        notes,
        format_args!("report: function other: the output lines differ from {function} in"),
    );
    say_symbols(
        notes,
        added(sum, function_record(shares, function.number())),
    );
    note(notes, "\n");
}

fn computes(table: &[u8], shares: usize, masks: usize, function: Function) -> bool {
    table::function_check(table, shares, masks, function.number()).unwrap_or(false)
}

// Whoever multiplies names products, whoever adds names b.
fn meant(sum: Sum) -> Function {
    if names_product(sum) {
        return Function::Product;
    }
    if names_share_b(sum) {
        return Function::Sum;
    }
    Function::Copy
}
