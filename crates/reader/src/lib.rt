// The reader of descriptions, and the text part of a wire (scope, "The description text", "Wires" and "What each operation turns down").
// Every argument may be anything its type holds: what is out of range is refused, in the scope's order, and a refusal alters no lent byte.
// The type of what a text that was read gives is passed on from `scratch_reader`, that of what is wrong with one from `description`.
#![tactic(auto)]

ghost use Rattle.std.specs.Prelude.{◌≡◌, ◌≤◌, ◌+◌, length, take, drop, ◌++◌};
ghost use Rattle.reader.specs.Answers.{read_told, read_text, part_refusal_number, part_told, part_check, text_part, part_start};
ghost use Rattle.reader.specs.Reads.{ReadsGrammar};

pub use description::Fault;
use description::Refusal;
use limits::{MAX_TABLE_BYTES, RECORD_BYTES};
use records::layout::text_place;
pub use scratch_reader::Reading;

// Why a text part is refused.
#[derive(Clone, Copy)]
pub enum PartRefusal {
    TableLength,
    NoSuchWire,
    OutsideTheText,
}

impl PartRefusal {
    // The scope's number of the refusal.
    pub fn number(self) -> u64
        ensures { result ≡ part_refusal_number self }
    {
        match self {
            PartRefusal::TableLength => 12,
            PartRefusal::NoSuchWire => 21,
            PartRefusal::OutsideTheText => 22,
        }
    }
}

// Where the part of the text that computes a wire stands.
#[derive(Clone, Copy)]
pub struct Part {
    pub offset: usize,
    pub length: usize,
}

// Reads a text into the wires that its grammar gives.
pub fn read_text(text: &[u8], table: &mut [u8]) -> Result<Reading, Fault>
    ensures table_after { read_told result table.new ≡ read_text text.now table.old }
    ensures reads_grammar { ReadsGrammar result text.now (length table.old) table.new }
{
    let mut scratch = [0u8; MAX_TABLE_BYTES];
    let reading = scratch_reader::read_scratch(text, &mut scratch)?;
    let size = RECORD_BYTES * reading.wires;
    if table.len() < size {
        return Err(Fault {
            why: Refusal::TooManyWires,
            offset: text.len(),
        });
    }
    copy(table, &scratch, size);
    Ok(reading)
}

// Where the part of the text that computes a wire stands, or why there is none.
pub fn text_part_check(text: &[u8], table: &[u8], wire: usize) -> Result<Part, PartRefusal>
    ensures { part_told result ≡ part_check text.now table.now wire }
{
    if table.len() % RECORD_BYTES != 0 {
        return Err(PartRefusal::TableLength);
    }
    if MAX_TABLE_BYTES < table.len() {
        return Err(PartRefusal::TableLength);
    }
    if table.len() / RECORD_BYTES <= wire {
        return Err(PartRefusal::NoSuchWire);
    }
    let place = text_place(table, wire);
    if text.len() < place.offset + place.length {
        return Err(PartRefusal::OutsideTheText);
    }
    Ok(Part {
        offset: place.offset,
        length: place.length,
    })
}

// The part of the caller's own text that computes a wire; empty where the check refuses it. A reference's place is a block of memory and an
// offset in it: the part stands in the text's block, as far on from the text as the wire's offset says.
pub fn text_part<'a>(text: &'a [u8], table: &[u8], wire: usize) -> &'a [u8]
    ensures result_value { result.now ≡ text_part text.now table.now wire }
    ensures ref_ptr_value { (result.ref_ptr.0 ≡ text.entry.ref_ptr.0) × (result.ref_ptr.1 ≡ text.entry.ref_ptr.1 + part_start text.now table.now wire) }
{
    match text_part_check(text, table, wire) {
        Err(why) => &text[0..0],
        Ok(part) => &text[part.offset..part.offset + part.length],
    }
}

// Copies so many bytes to the start of the lent table.
fn copy(table: &mut [u8], from: &[u8], count: usize)
    requires { (count ≤ length table.old) × (count ≤ length from.now) }
    ensures { table.new ≡ take count from.now ++ drop count table.old }
{
    table[..count].copy_from_slice(&from[..count]);
}
