// The wires of a break, each with the part of the text that computes it, and on how many shares of each operand they depend.
ghost use Rattle.std.specs.Prelude.{◌≤◌, length};

use crate::symbols::say_symbols;
use console::lines;
use console::saying::{note, say};
use limits::{MAX_SIZE, RECORD_BYTES};
use records::sums::{Sum, added, is_outer, nothing, wire_record};
use tokens::bytes::is_digit;

// The numbers of a line that have been read, and the one that is being read.
#[derive(Clone, Copy)]
struct Numbers {
    size: usize,
    wire: Option<u16>,
}

// Goes by the report: its lines are the order, the function, NI and SNI, and a line that tells a break has the set's wires.
pub fn explain(
    notes: &impl Print,
    text: &[u8],
    table: &[u8],
    shares: usize,
    masks: usize,
    report: &[u8],
) {
    let function = lines::next(report, 0);
    let ni = lines::next(report, function);
    let sni = lines::next(report, ni);
    if report[ni..].starts_with(b"NI broken") {
        say_broken(notes, "NI", "wires");
        show_break(notes, text, table, shares, masks, 1, &report[ni..sni]);
    }
    if report[sni..].starts_with(b"SNI broken") {
        say_broken(notes, "SNI", "inner wires");
        show_break(notes, text, table, shares, masks, 2, &report[sni..]);
    }
}

fn say_broken(notes: &impl Print, notion: &str, counted: &str) {
    note(
        notes,
        format_args!(
            "report: {notion} is broken: these wires add up to a sum without masks that depends on more shares of a, or of b, than there are {counted}\n"
        ),
    );
}

// Shows the wires whose numbers stand in a line of the report, and what they depend on.
// kept (C): a notion is 1 or 2 here, the number that `verdict::set_dependence` takes, whose contract is C's
fn show_break(
    notes: &impl Print,
    text: &[u8],
    table: &[u8],
    shares: usize,
    masks: usize,
    notion: usize,
    line: &[u8],
) {
    let mut set = [0u16; MAX_SIZE];
    let size = wires_of(line, &mut set);
    show_set(notes, text, table, &set[..size]);
    say_dependence(notes, table, shares, masks, notion, &set[..size]);
}

fn say_dependence(
    notes: &impl Print,
    table: &[u8],
    shares: usize,
    masks: usize,
    notion: usize,
    set: &[u16],
) {
    // a set of the report is one of the table
    if let Ok(on) = verdict::set_dependence(table, shares, masks, notion, set) {
        note(
            notes,
            format_args!(
                "    depends on {} of a's shares and {} of b's, {} of each allowed\n",
                on.of_a, on.of_b, on.allowed
            ),
        );
    }
}

// Shows each wire of a set, and what their sum names.
fn show_set(notes: &impl Print, text: &[u8], table: &[u8], set: &[u16]) {
    let mut sum = nothing();
    for wire in set {
        let wire = usize::from(*wire);
        show_wire(notes, text, table, wire);
        sum = added(sum, record_of(table, wire));
    }
    note(notes, "    together:");
    say_symbols(notes, sum);
    note(notes, "\n");
}

// Writes the numbers that stand in a line to a set, and answers how many. The line has its end, so that no number is the last of it.
fn wires_of(line: &[u8], set: &mut [u16]) -> usize
    ensures { result ≤ length set.new }
{
    let mut numbers = Numbers {
        size: 0,
        wire: None,
    };
    for byte in line {
        numbers = after_byte(set, numbers, *byte);
    }
    numbers.size
}

// A digit belongs to a wire's number; any other byte ends it.
fn after_byte(set: &mut [u16], numbers: Numbers, byte: u8) -> Numbers
    requires { numbers.size ≤ length set.old }
    ensures { result.size ≤ length set.new }
{
    let size = numbers.size;
    if is_digit(byte) {
        let wire = with_digit(numbers.wire.unwrap_or(0), byte);
        return Numbers {
            size,
            wire: Some(wire),
        };
    }
    match numbers.wire {
        Some(wire) if size < set.len() => {
            set[size] = wire;
            Numbers {
                size: size + 1,
                wire: None,
            }
        }
        _ => Numbers { size, wire: None },
    }
}

// A wire's number has 16 bits, so nothing is cut off.
fn with_digit(number: u16, digit: u8) -> u16
    requires { 48 ≤ digit }
{
    number
        .wrapping_mul(10)
        .wrapping_add(u16::from(digit - b'0'))
}

fn show_wire(notes: &impl Print, text: &[u8], table: &[u8], wire: usize) {
    // a wire of the text that was read has its part
    if let Ok(part) = reader::text_part_check(text, table, wire) {
        note(notes, format_args!("    wire {wire}"));
        if part.offset <= text.len() {
            let line = lines::number(text, part.offset);
            note(notes, format_args!(", line {line}"));
        }
        note(notes, format_args!(", {}: ", kind(table, wire)));
        say(notes, reader::text_part(text, table, wire));
        note(notes, "\n");
    }
}

fn kind(table: &[u8], wire: usize) -> &'static str {
    if wire < table.len() / RECORD_BYTES && is_outer(table, wire) {
        return "outer";
    }
    "inner"
}

// A wire of the report is one of the table.
fn record_of(table: &[u8], wire: usize) -> Sum {
    if wire < table.len() / RECORD_BYTES {
        return wire_record(table, wire);
    }
    nothing()
}
