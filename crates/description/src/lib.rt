// What a description text says: the data that its readers share, the meaning of a text (in specs/) and what is true of it (in proofs/).
#![tactic(auto)]

ghost use Rattle.std.specs.Prelude.{◌≡◌};
ghost use Rattle.description.specs.Run.{refusal_number, symbol_refusal};

use records::sums::Sum;
use wires::Symbol;

// A symbol, known with the place it starts.
#[derive(Clone, Copy)]
pub struct PlacedSymbol {
    pub place: usize,
    pub symbol: Symbol,
}

// The most bytes of a text.
pub const MAX_TEXT_BYTES: usize = 4096;

// Why a run of bytes is no symbol to take: it spells none of the order's, or a mask that is not declared.
#[derive(Clone, Copy)]
pub enum SymbolFault {
    NoSuch,
    NotDeclared,
}

// What the second line declares: bit k for mask k, the mask count, and the place of the line's end.
#[derive(Clone, Copy)]
pub struct Masks {
    pub declared: u64,
    pub count: usize,
    pub end: usize,
}

// A wire as it is listed: the sum it holds, whether it is an outer one and of which output line, and the part of the text that computes it.
#[derive(Clone, Copy)]
pub struct Listed {
    pub sum: Sum,
    // kept: outer and line have a byte each in the record that C reads (`record_of`)
    pub outer: bool,
    pub line: usize,
    pub offset: usize,
    pub length: usize,
}

// An item that was read: its sum, and where it begins and ends, parentheses included.
#[derive(Clone, Copy)]
pub struct Item {
    pub sum: Sum,
    pub from: usize,
    pub end: usize,
}

// An open group: the sum of its items so far, whether it has one, and the place of its first.
#[derive(Clone, Copy)]
pub struct Group {
    pub sum: Sum,
    // kept: an empty group has the sum of no items, and as an Option each item would take it apart and put it together again
    pub filled: bool,
    pub first: usize,
}

// Why a text is turned down.
#[derive(Clone, Copy)]
pub enum Refusal {
    TextTooLong,
    WrongOrderLine,
    WrongMasksLine,
    NoSuchSymbol,
    MaskNotDeclared,
    WrongParenthesis,
    Bar,
    NestedTooDeep,
    WrongLineCount,
    TooManyWires,
}

// Why a text is turned down, and the byte offset of its fault.
#[derive(Clone, Copy)]
pub struct Fault {
    pub why: Refusal,
    pub offset: usize,
}

impl From<SymbolFault> for Refusal {
    ghost from_gives = { λ fault why. why ≡ symbol_refusal fault };

    fn from(fault: SymbolFault) -> Refusal {
        match fault {
            SymbolFault::NoSuch => Refusal::NoSuchSymbol,
            SymbolFault::NotDeclared => Refusal::MaskNotDeclared,
        }
    }
}

impl Refusal {
    // The scope's number of the refusal.
    pub fn number(self) -> u64
        ensures { result ≡ refusal_number self }
    {
        match self {
            Refusal::TextTooLong => 1,
            Refusal::WrongOrderLine => 2,
            Refusal::WrongMasksLine => 3,
            Refusal::NoSuchSymbol => 4,
            Refusal::MaskNotDeclared => 5,
            Refusal::WrongParenthesis => 6,
            Refusal::Bar => 7,
            Refusal::NestedTooDeep => 8,
            Refusal::WrongLineCount => 9,
            Refusal::TooManyWires => 10,
        }
    }
}
