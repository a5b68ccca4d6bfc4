// How a wire stands in a table: a record of RECORD_BYTES bytes, numbers little-endian (scope, "Wires").
ghost use Rattle.std.specs.Prelude.{◌≡◌, ◌≤◌, ◌<◌, ◌+◌, ◌^◌, take, drop, length};
ghost use Rattle.records.specs.Words.{number};
ghost use Rattle.records.specs.Layout.{wire_count, record_at, line_of, offset_of, length_of};

use limits::RECORD_BYTES;

// The products stand first.
pub const MASKS_AT: usize = 8;

pub const SHARES_A_AT: usize = 16;

pub const SHARES_B_AT: usize = 17;

pub const OUTER_AT: usize = 18;

pub const LINE_AT: usize = 19;

pub const OFFSET_AT: usize = 20;

pub const LENGTH_AT: usize = 22;

// A byte as a number of 64 bits.
// kept: docs/PROMISES.md promises `layout::wide` to the crates above
pub fn wide(byte: u8) -> u64
    ensures { (result ≡ byte) × (result < 256) }
{
    u64::from(byte)
}

// The number of eight bytes.
pub fn word(bytes: &[u8], at: usize) -> u64
    requires { at + 8 ≤ length bytes.now }
    ensures { result ≡ number (take 8 (drop at bytes.now)) }
{
    u64::from_le_bytes(bytes[at..at + 8].try_into().unwrap())
}

// The number of two bytes.
fn short(bytes: &[u8], at: usize) -> usize
    requires { at + 2 ≤ length bytes.now }
    ensures { result ≡ number (take 2 (drop at bytes.now)) }
{
    usize::from(u16::from_le_bytes(bytes[at..at + 2].try_into().unwrap()))
}

// Where a wire stands in the text: its output line, and the offset and length of the part that computes it.
#[derive(Clone, Copy)]
pub struct TextPlace {
    pub line: u8,
    pub offset: usize,
    pub length: usize,
}

// What a wire's record says of the text.
pub fn text_place(table: &[u8], wire: usize) -> TextPlace
    requires { wire < wire_count table.now }
    ensures { (result.line ≡ line_of (record_at table.now wire)) × (result.offset ≡ offset_of (record_at table.now wire)) × (result.length ≡ length_of (record_at table.now wire)) }
{
    let at = RECORD_BYTES * wire;
    TextPlace {
        line: table[at + LINE_AT],
        offset: short(table, at + OFFSET_AT),
        length: short(table, at + LENGTH_AT),
    }
}
