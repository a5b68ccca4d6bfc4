// The record of a wire, written into a table.
ghost use Rattle.std.specs.Prelude.{◌≡◌, ◌≤◌, ◌<◌, ◌+◌, ◌*◌, length};
ghost use Rattle.std.proofs.lemmas.List.Edits.{sets};
ghost use Rattle.limits.specs.Limits.{max_wires, record_bytes, max_table_bytes};
ghost use Rattle.records.specs.Words.{bytes_of};
ghost use Rattle.records.specs.Layout.{outer_at};
ghost use Rattle.record_words.specs.Writing.{sum_bytes, place_bytes, record_of, outer_bytes};

use limits::RECORD_BYTES;
use records::layout::{
    LENGTH_AT, LINE_AT, MASKS_AT, OFFSET_AT, OUTER_AT, SHARES_A_AT, SHARES_B_AT,
};
use records::sums::Sum;

// Writes a number as so many bytes, the lowest first.
// kept: `copy_from_slice` of `number.to_le_bytes()` would ask that `size` is at most 8, which `write_number` does not ask
pub fn write_number(table: &mut [u8], at: usize, size: usize, number: u64)
    requires { at + size ≤ length table.old }
    ensures { table.new ≡ sets table.old at (bytes_of size number) }
{
    let mut rest = number;
    for i in 0..size {
        table[at + i] = (rest % 256) as u8;
        rest = rest / 256;
    }
}

// Writes a sum: products, masks, shares of a, shares of b.
fn write_sum(table: &mut [u8], at: usize, sum: Sum)
    requires { (at + record_bytes ≤ length table.old) × (length table.old ≡ max_table_bytes) }
    ensures { table.new ≡ sets table.old at (sum_bytes sum) }
{
    write_number(table, at, 8, sum.products);
    write_number(table, at + MASKS_AT, 8, sum.masks);
    write_number(table, at + SHARES_A_AT, 1, u64::from(sum.shares_a));
    write_number(table, at + SHARES_B_AT, 1, u64::from(sum.shares_b));
}

// Writes what a record says of the text: 0 inner or 1 outer, output line, offset, length.
fn write_place(table: &mut [u8], at: usize, outer: bool, line: usize, offset: usize, size: usize)
    requires { (at + record_bytes ≤ length table.old) × (length table.old ≡ max_table_bytes) }
    ensures { table.new ≡ sets table.old (at + outer_at) (place_bytes outer line offset size) }
{
    write_number(table, at + OUTER_AT, 1, u64::from(outer));
    write_number(table, at + LINE_AT, 1, line as u64);
    write_number(table, at + OFFSET_AT, 2, offset as u64);
    write_number(table, at + LENGTH_AT, 2, size as u64);
}

// Writes the record of a wire: its sum, whether it is an outer one and of which output line, and the part of the text that computes it.
pub fn write_record(
    table: &mut [u8],
    wire: usize,
    sum: Sum,
    outer: bool,
    line: usize,
    offset: usize,
    size: usize,
)
    requires { (wire < max_wires) × (length table.old ≡ max_table_bytes) }
    ensures { table.new ≡ sets table.old (record_bytes * wire) (record_of sum outer line offset size) }
{
    let at = RECORD_BYTES * wire;
    write_sum(table, at, sum);
    write_place(table, at, outer, line, offset, size);
}

// Makes a wire the outer one of a line.
pub fn write_outer(table: &mut [u8], wire: usize, line: usize)
    requires { (wire < max_wires) × (length table.old ≡ max_table_bytes) }
    ensures { table.new ≡ sets table.old (record_bytes * wire + outer_at) (outer_bytes line) }
{
    let at = RECORD_BYTES * wire;
    write_number(table, at + OUTER_AT, 1, 1);
    write_number(table, at + LINE_AT, 1, line as u64);
}
