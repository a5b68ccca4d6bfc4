// The symbols that a sum names.
ghost use Rattle.std.specs.Prelude.{◌≤◌, ◌<◌};
ghost use Rattle.record_words.specs.Symbols.{Small};
ghost use Rattle.report.specs.Symbols.{symbol_count};

use console::saying::note;
use limits::{MAX_MASKS, MAX_SHARES};
use record_words::symbols::is_in;
use records::sums::Sum;
use wires::Symbol;

// All symbols have a place in one row: products, by the share of a and then that of b, shares of a, shares of b, masks. Where each kind
// begins:
const SHARES_A: usize = MAX_SHARES * MAX_SHARES;

const SHARES_B: usize = SHARES_A + MAX_SHARES;

const MASKS: usize = SHARES_B + MAX_SHARES;

const SYMBOLS: usize = MASKS + MAX_MASKS;

// Says each symbol of a sum, a space before it.
pub fn say_symbols(notes: &impl Print, sum: Sum) {
    for place in 0..SYMBOLS {
        let symbol = symbol_at(place);
        if is_in(symbol, sum) {
            say_symbol(notes, symbol);
        }
    }
}

pub fn names_product(sum: Sum) -> bool {
    names_any(sum, 0, SHARES_A)
}

pub fn names_share_b(sum: Sum) -> bool {
    names_any(sum, SHARES_B, MASKS)
}

// Whether a sum names one of the symbols of a part of the row.
fn names_any(sum: Sum, from: usize, to: usize) -> bool
    requires { to ≤ symbol_count }
{
    (from..to).any(|place| is_in(symbol_at(place), sum))
}

fn symbol_at(place: usize) -> Symbol
    requires { place < symbol_count }
    ensures { Small result }
{
    if place < SHARES_A {
        return Symbol::Product(place / MAX_SHARES, place % MAX_SHARES);
    }
    if place < SHARES_B {
        return Symbol::ShareA(place - SHARES_A);
    }
    if place < MASKS {
        return Symbol::ShareB(place - SHARES_B);
    }
    Symbol::Mask(place - MASKS)
}

fn say_symbol(notes: &impl Print, symbol: Symbol) {
    match symbol {
        Symbol::Product(i, j) => note(notes, format_args!(" s{i}{j}")),
        Symbol::ShareA(i) => note(notes, format_args!(" a{i}")),
        Symbol::ShareB(j) => note(notes, format_args!(" b{j}")),
        Symbol::Mask(k) => note(notes, format_args!(" r{k}")),
    }
}
