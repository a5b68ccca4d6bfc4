// The wires as they are listed into a table of MAX_TABLE_BYTES bytes, and how far the reading has come. Wires are counted on past
// MAX_WIRES, and written no more.
#![tactic(auto)]

ghost use Rattle.std.specs.Prelude.{◌≡◌, ◌≤◌, ◌<◌, length};
ghost use Rattle.limits.specs.Limits.{max_shares, max_table_bytes};
ghost use Rattle.record_words.specs.Symbols.{Small};
ghost use Rattle.description.specs.Listing.{symbol_wire, empty_group};
ghost use Rattle.description.specs.Run.{max_text, used, put, took, line_done};
ghost use Rattle.listing.specs.Progress.{used_progress, put_progress, took_progress, line_progress, Lists, MakesOuter, Follows};

use description::{Group, Item, Listed, PlacedSymbol};
use limits::MAX_WIRES;
use record_words::symbols::{is_in, symbol_sum};
use record_words::writing::{write_outer, write_record};
use records::sums::{Sum, added, nothing};
use symbols::symbol_length;

pub mod symbols;

// How far the reading has come: the place in the text, the wires listed, the symbols used, the output lines done, whether this line has an
// addition, the last symbol, and the innermost open group.
#[derive(Clone, Copy)]
pub struct Progress {
    pub at: usize,
    pub wires: usize,
    pub seen: Sum,
    pub lines: usize,
    pub added: bool,
    pub last: PlacedSymbol,
    pub group: Group,
}

// Lists one wire more.
fn list_wire(table: &mut [u8], wires: usize, wire: Listed)
    requires { length table.old ≡ max_table_bytes }
    ensures { Lists table.old wires table.new wire }
{
    if wires < MAX_WIRES {
        write_record(
            table,
            wires,
            wire.sum,
            wire.outer,
            wire.line,
            wire.offset,
            wire.length,
        );
    }
}

// Makes the newest wire the outer one of a line.
fn make_outer(table: &mut [u8], wires: usize, line: usize)
    requires { length table.old ≡ max_table_bytes }
    ensures { MakesOuter table.old wires table.new line }
{
    if wires == 0 {
        return;
    }
    if wires <= MAX_WIRES {
        write_outer(table, wires - 1, line);
    }
}

// The inner wire of a symbol.
fn symbol_wire(known: PlacedSymbol) -> Listed
    requires { Small known.symbol }
    ensures { result ≡ symbol_wire known }
{
    let symbol = known.symbol;
    Listed {
        sum: symbol_sum(symbol),
        outer: false,
        line: 0,
        offset: known.place,
        length: symbol_length(symbol),
    }
}

// A symbol is used: its first use lists a wire.
fn use_symbol(table: &mut [u8], progress: Progress, known: PlacedSymbol) -> Progress
    requires { (length table.old ≡ max_table_bytes) × (progress.wires < 65536) × Small known.symbol }
    ensures value { result ≡ used_progress known progress }
    ensures follows { Follows table.old progress table.new result (used known) }
{
    let symbol = known.symbol;
    let seen = progress.seen;
    let mut next = progress;
    next.last = known;
    if is_in(symbol, seen) {
        return next;
    }
    list_wire(table, progress.wires, symbol_wire(known));
    next.wires = progress.wires + 1;
    let more = added(seen, symbol_sum(symbol));
    next.seen = more;
    next
}

// An item is put into the innermost group: the first begins it, any other is added, and the addition lists a wire.
pub fn put_item(table: &mut [u8], progress: Progress, item: Item) -> Progress
    requires table_len { (length table.old ≡ max_table_bytes) × (progress.wires < 65536) }
    requires first_le_end { progress.group.first ≤ item.end }
    ensures value { result ≡ put_progress item progress }
    ensures follows { Follows table.old progress table.new result (put item) }
{
    let group = progress.group;
    let sum = item.sum;
    let mut next = progress;
    next.at = item.end;
    if !group.filled {
        let begun = Group {
            sum: sum,
            filled: true,
            first: item.from,
        };
        next.group = begun;
        return next;
    }
    let total = added(group.sum, sum);
    list_wire(
        table,
        progress.wires,
        Listed {
            sum: total,
            outer: false,
            line: 0,
            offset: group.first,
            length: item.end - group.first,
        },
    );
    next.wires = progress.wires + 1;
    next.added = true;
    let grown = Group {
        sum: total,
        filled: true,
        first: group.first,
    };
    next.group = grown;
    next
}

// A symbol is taken as an item: its wire comes before the addition that takes it.
pub fn take_symbol(table: &mut [u8], progress: Progress, known: PlacedSymbol) -> Progress
    requires table_len { (length table.old ≡ max_table_bytes) × (progress.wires < 65535) × Small known.symbol }
    requires first_le_place { (progress.group.first ≤ known.place) × (known.place ≤ max_text) }
    ensures value { result ≡ took_progress known progress }
    ensures follows { Follows table.old progress table.new result (took known) }
{
    let at = known.place;
    let symbol = known.symbol;
    let item = Item {
        sum: symbol_sum(symbol),
        from: at,
        end: at + symbol_length(symbol),
    };
    let next = use_symbol(table, progress, known);
    put_item(table, next, item)
}

// An output line is done: its last addition is an outer wire, or a single symbol gets an outer wire of its own.
pub fn end_line(table: &mut [u8], progress: Progress) -> Progress
    requires { (length table.old ≡ max_table_bytes) × (progress.wires < 65536) × (progress.lines < max_shares) × Small progress.last.symbol }
    ensures value { result ≡ line_progress progress }
    ensures follows { Follows table.old progress table.new result line_done }
{
    let line = progress.lines;
    let mut next = progress;
    next.lines = line + 1;
    next.added = false;
    let empty = empty_group();
    next.group = empty;
    if progress.added {
        make_outer(table, progress.wires, line);
        return next;
    }
    let last = progress.last;
    let mut wire = symbol_wire(last);
    wire.outer = true;
    wire.line = line;
    list_wire(table, progress.wires, wire);
    next.wires = progress.wires + 1;
    next
}

// A group before its first item.
pub fn empty_group() -> Group
    ensures { result ≡ empty_group }
{
    Group {
        sum: nothing(),
        filled: false,
        first: 0,
    }
}
