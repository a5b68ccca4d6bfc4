// How many bytes symbols have.
ghost use Rattle.std.specs.Prelude.{◌≡◌};
ghost use Rattle.description.specs.Symbols.{name_length, symbol_length};

use wires::Symbol;

// How many bytes the name of a mask has.
pub fn name_length(mask: usize) -> usize
    ensures { result ≡ name_length mask }
{
    if mask < 10 {
        return 2;
    }
    3
}

// How many bytes a symbol has.
pub fn symbol_length(symbol: Symbol) -> usize
    ensures { result ≡ symbol_length symbol }
{
    match symbol {
        Symbol::Product(i, j) => 3,
        Symbol::ShareA(i) => 2,
        Symbol::ShareB(j) => 2,
        Symbol::Mask(k) => name_length(k),
    }
}
