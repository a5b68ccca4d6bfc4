// The sums that name symbols.
ghost use Rattle.std.specs.Prelude.{◌≡◌};
ghost use Rattle.record_words.specs.Symbols.{symbol_sum, is_in, Small};

use records::sums::Sum;
use wires::Symbol;

// The sum that names a symbol alone.
pub fn symbol_sum(symbol: Symbol) -> Sum
    requires { Small symbol }
    ensures { result ≡ symbol_sum symbol }
{
    match symbol {
        Symbol::Product(i, j) => Sum {
            products: 1u64 << (8 * i + j),
            masks: 0,
            shares_a: 0,
            shares_b: 0,
        },
        Symbol::ShareA(i) => Sum {
            products: 0,
            masks: 0,
            shares_a: 1u8 << i,
            shares_b: 0,
        },
        Symbol::ShareB(j) => Sum {
            products: 0,
            masks: 0,
            shares_a: 0,
            shares_b: 1u8 << j,
        },
        Symbol::Mask(k) => Sum {
            products: 0,
            masks: 1u64 << k,
            shares_a: 0,
            shares_b: 0,
        },
    }
}

// Whether a sum names a symbol.
pub fn is_in(symbol: Symbol, sum: Sum) -> bool
    requires { Small symbol }
    ensures { result ≡ is_in symbol sum }
{
    match symbol {
        Symbol::Product(i, j) => (sum.products >> (8 * i + j)) % 2 == 1,
        Symbol::ShareA(i) => (sum.shares_a >> i) % 2 == 1,
        Symbol::ShareB(j) => (sum.shares_b >> j) % 2 == 1,
        Symbol::Mask(k) => (sum.masks >> k) % 2 == 1,
    }
}
