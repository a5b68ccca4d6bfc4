// The lines of a report put together, each written to a page where the one before it ends. They see only what the reader and the lines themselves
// promise.
#![tactic(auto)]

ghost use Rattle.std.specs.Prelude.{◌≡◌, ◌≤◌, ◌+◌, length};
ghost use Rattle.pages.specs.Page.{Wrote};
ghost use Rattle.report_lines.specs.Report.{max_report, checked, report};

use figure_lines::{function_line, order_line, refused_line};
use limits::{MAX_TABLE_BYTES, RECORD_BYTES};
use verdict_lines::notion_line;

// The whole report on a text.
pub fn whole_report(page: &mut [u8], text: &[u8]) -> usize
    requires { length page.old ≡ max_report }
    ensures wrote { Wrote page.old 0 (report text.now) page.new result }
    ensures upper_bound { result ≤ max_report }
{
    let mut table = [0u8; MAX_TABLE_BYTES];
    match reader::read_text(text, &mut table) {
        Err(fault) => refused_line(page, fault.why.number() as usize, fault.offset),
        Ok(read) => {
            let next = order_line(page, read.order, read.shares, read.masks, read.wires);
            let table = &table[0..RECORD_BYTES * read.wires];
            checked_lines(page, next, table, read.order, read.shares, read.masks)
        }
    }
}

// The function and both verdicts.
fn checked_lines(
    page: &mut [u8],
    at: usize,
    table: &[u8],
    order: usize,
    shares: usize,
    masks: usize,
) -> usize
    requires { at + 384 ≤ length page.old }
    ensures wrote { Wrote page.old at (checked table.now order shares masks) page.new result }
    ensures upper_bound { result ≤ at + 384 }
{
    let first = function_line(page, at, table, shares, masks);
    let second = notion_line(page, first, table, shares, masks, 1, order);
    notion_line(page, second, table, shares, masks, 2, order)
}
