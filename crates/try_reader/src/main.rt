// Prints what the entries of `reader` answer on the cases of its input. A case is a head and a rest. The head is the kind, a byte, and three
// lengths of two bytes, the lower first: of the lent table, of the text and of the rest. A reading, kind 0, has the text in its rest, which may
// leave out the spaces at the text's end. A text part, any other kind, has there the wire's number in eight bytes, the lower first, the text
// and the table. `tests/try_reader.py` writes the input, and works the output out from the scope.
#![tactic(auto)]

ghost use Rattle.std.specs.Prelude.{◌≡◌, ◌<◌, ◌≤◌, length};

use limits::RECORD_BYTES;
use std::io;
use try_cases::{case_end, read_full};

const INPUT_BYTES: usize = 524288;

const HEAD: usize = 7;

const WIRE_BYTES: usize = 8;

// The longest text and the longest table that are lent.
const TEXT_ROOM: usize = 8192;

const TABLE_ROOM: usize = 16384;

// What a lent table holds beforehand: its first byte, and the step from each to the next.
const PATTERN_START: u8 = 165;

const PATTERN_STEP: u8 = 89;

// The prime by which sums are reduced, and the factor from each byte to the next.
const PRIME: u64 = 4294967291;

const FACTOR: u64 = 2654435761;

fn main(rt: HostRuntime) -> io::Result<()> {
    let mut cases = no_bytes();
    let end = read_full(&mut rt.stdin(), &mut cases)?;
    each(&rt, &cases[0..end])
}

// Room for the whole input. Of so long an array nothing but its length is to be looked at.
fn no_bytes() -> [u8; INPUT_BYTES]
    ensures { 524288 ≡ length result }
{
    [0; INPUT_BYTES]
}

// One case after the other.
fn each(rt: &impl Print, cases: &[u8]) -> io::Result<()> {
    let mut at = 0;
    let mut end = case_end(cases, 0, HEAD);
    while HEAD <= end - at {
        let lent = u16::from_le_bytes([cases[at + 1], cases[at + 2]]);
        let size = u16::from_le_bytes([cases[at + 3], cases[at + 4]]);
        tell(
            rt,
            cases[at],
            usize::from(lent),
            usize::from(size),
            &cases[at + HEAD..end],
        )?;
        at = end;
        end = case_end(cases, at, HEAD);
    }
    Ok(())
}

fn tell(rt: &impl Print, kind: u8, lent: usize, size: usize, rest: &[u8]) -> io::Result<()> {
    if kind == 0 {
        tell_reading(rt, rest, size, lent)
    } else {
        tell_part(rt, rest, size)
    }
}

// A reading of a text, spaces put after its start up to its size.
fn tell_reading(rt: &impl Print, start: &[u8], size: usize, lent: usize) -> io::Result<()> {
    let mut text = [b' '; TEXT_ROOM];
    let mut table = [0u8; TABLE_ROOM];
    let count = start.len().min(TEXT_ROOM);
    text[..count].copy_from_slice(&start[..count]);
    pattern(&mut table);
    let text_end = size.min(TEXT_ROOM);
    let table_end = lent.min(TABLE_ROOM);
    ask_reading(rt, &text[..text_end], &mut table[..table_end])
}

fn pattern(table: &mut [u8]) {
    let mut byte = PATTERN_START;
    for place in table.iter_mut() {
        *place = byte;
        byte = byte.wrapping_add(PATTERN_STEP);
    }
}

// The answer, and the checksum of the whole lent table.
fn ask_reading(rt: &impl Print, text: &[u8], table: &mut [u8]) -> io::Result<()> {
    match reader::read_text(text, table) {
        Ok(read) => {
            print!(rt;
                "order {} shares {} masks {} wires {}",
                read.order, read.shares, read.masks, read.wires
            )?;
            let records = read.wires.min(table.len() / RECORD_BYTES);
            parts(rt, text, &table[..RECORD_BYTES * records], read.wires)?;
        }
        Err(fault) => {
            print!(rt; "refused {} at {}", fault.why.number(), fault.offset)?;
        }
    }
    let sum = checksum(0, table);
    println!(rt; " table {sum}")
}

// The checksum of the parts of a table's wires, one after the other.
fn parts(rt: &impl Print, text: &[u8], table: &[u8], wires: usize) -> io::Result<()> {
    let mut total = 0;
    for wire in 0..wires {
        total = checksum(total, reader::text_part(text, table, wire));
    }
    print!(rt; " parts {total}")
}

// A polynomial of the bytes, modulo a prime, that goes on from a total.
fn checksum(before: u64, bytes: &[u8]) -> u64
    requires { before < 4294967291 }
    ensures { result < 4294967291 }
{
    let mut total = before;
    for byte in bytes {
        total = with_byte(total, *byte);
    }
    total
}

fn with_byte(total: u64, byte: u8) -> u64
    requires { total < 4294967291 }
    ensures { result < 4294967291 }
{
    (total * FACTOR + u64::from(byte) + 1) % PRIME
}

// The part of the text that a wire's record names.
fn tell_part(rt: &impl Print, rest: &[u8], size: usize) -> io::Result<()> {
    if rest.len() < WIRE_BYTES {
        return Ok(());
    }
    let (number, rest) = rest.split_at(WIRE_BYTES);
    let (text, table) = rest.split_at(size.min(rest.len()));
    let mut wire = [0u8; WIRE_BYTES];
    wire.copy_from_slice(number);
    ask_part(rt, text, table, usize::from_le_bytes(wire))
}

// The check's answer, and the length and the checksum of the part itself.
fn ask_part(rt: &impl Print, text: &[u8], table: &[u8], wire: usize) -> io::Result<()> {
    match reader::text_part_check(text, table, wire) {
        Ok(part) => print!(rt; "part at {} length {}", part.offset, part.length)?,
        Err(why) => print!(rt; "refused {}", why.number())?,
    }
    let part = reader::text_part(text, table, wire);
    println!(rt; " bytes {} sum {}", part.len(), checksum(0, part))
}
