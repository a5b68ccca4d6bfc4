// The lines of a plan, written to a page of spaces one after the other: the rows of a table, each a name and a figure, and the time below it.
// kept: the clauses of these functions bound the bytes on the page, and a Display would have no page
ghost use Rattle.std.specs.Prelude.{◌≤◌, ◌+◌, ◌*◌, length};
ghost use Rattle.limits.specs.Limits.{max_order};
ghost use Rattle.plan.specs.Rows.{row_bytes, time_line_bytes};

use console::times::write_time;
use limits::MAX_ORDER;
use pages::{write_named, write_text};
use plan_text::CheckSize;

// A row's columns, without the line's end, of which the figure may take so many.
const COLUMNS: usize = 40;

const FIGURE_COLUMNS: usize = 20;

// What reading gives, and the bytes of the table that it needs.
pub fn write_figures(page: &mut [u8], size: &CheckSize) -> usize
    requires { 5 * row_bytes ≤ length page.old }
    ensures { result ≤ 5 * row_bytes }
{
    let first = write_row(page, 0, b"order", size.order as u64);
    let second = write_row(page, first, b"shares", size.shares as u64);
    let third = write_row(page, second, b"masks", size.masks as u64);
    let fourth = write_row(page, third, b"wires", size.wires as u64);
    write_row(page, fourth, b"bytes of the table", size.bytes as u64)
}

// The sets of each size from 1 to the order.
pub fn write_counts(page: &mut [u8], at: usize, order: usize, sets: &[u64; MAX_ORDER]) -> usize
    requires { at + max_order * row_bytes ≤ length page.old }
    ensures { result ≤ at + max_order * row_bytes }
{
    let mut end = at;
    for (i, count) in sets[..order.min(MAX_ORDER)].iter().enumerate() {
        end = write_count(page, end, i + 1, *count);
    }
    end
}

fn write_count(page: &mut [u8], at: usize, size: usize, sets: u64) -> usize
    requires { at + row_bytes ≤ length page.old }
    ensures { result ≤ at + row_bytes }
{
    write_named(page, at, b"sets of size ", size);
    write_figure(page, at, sets)
}

pub fn write_row(page: &mut [u8], at: usize, name: &[u8], figure: u64) -> usize
    requires { (length name.now ≤ 20) × (at + row_bytes ≤ length page.old) }
    ensures { result ≤ at + row_bytes }
{
    write_text(page, at, name);
    write_figure(page, at, figure)
}

// The figure of a row that starts at the place: it stands at the row's end, and what is left before it stays blank.
fn write_figure(page: &mut [u8], at: usize, figure: u64) -> usize
    requires { at + row_bytes ≤ length page.old }
    ensures { result ≤ at + row_bytes }
{
    let mut digits = [0u8; FIGURE_COLUMNS];
    let count = write_named(&mut digits, 0, b"", figure as usize);
    let end = write_text(page, at + (COLUMNS - count), &digits[..count]);
    write_text(page, end, b"\n")
}

// An empty line, and the sets of both notions with the time that they take at a rate of sets a second.
pub fn write_time_line(page: &mut [u8], at: usize, sets: u64, rate: u64) -> usize
    requires { (1 ≤ rate) × (at + time_line_bytes ≤ length page.old) }
    ensures { result ≤ at + time_line_bytes }
{
    let first = write_named(page, at, b"\nNI and SNI: up to ", sets as usize);
    let second = write_text(page, first, b" sets, ");
    let third = write_time(page, second, sets / rate);
    let fourth = write_named(page, third, b" at ", rate as usize);
    write_text(page, fourth, b" sets a second\n")
}
