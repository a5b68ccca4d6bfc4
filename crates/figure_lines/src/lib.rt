// The lines of a report in which there is no verdict, each written to a page: of a text that is turned down, of what was read, of the function. They
// see only what the function check promises, and ask for room on the page.
#![tactic(auto)]

ghost use Rattle.std.specs.Prelude.{◌≡◌, ◌≤◌, ◌+◌, length};
ghost use Rattle.table.specs.Answers.{function_check};
ghost use Rattle.pages.specs.Page.{Wrote};
ghost use Rattle.figure_lines.specs.Figures.{order_line, says_yes, function_line, refused_line};

use pages::{write_named, write_text};

// The line of a text that is turned down.
pub fn refused_line(page: &mut [u8], number: usize, offset: usize) -> usize
    requires { 64 ≤ length page.old }
    ensures wrote { Wrote page.old 0 (refused_line number offset) page.new result }
    ensures upper_bound { result ≤ 64 }
{
    let first = write_named(page, 0, b"refused ", number);
    let second = write_named(page, first, b" at ", offset);
    write_text(page, second, b"\n")
}

// Order, shares, mask count and wire count.
pub fn order_line(page: &mut [u8], order: usize, shares: usize, masks: usize, wires: usize) -> usize
    requires { 128 ≤ length page.old }
    ensures wrote { Wrote page.old 0 (order_line order shares masks wires) page.new result }
    ensures upper_bound { result ≤ 128 }
{
    let first = write_named(page, 0, b"order ", order);
    let second = write_named(page, first, b" shares ", shares);
    let third = write_named(page, second, b" masks ", masks);
    let fourth = write_named(page, third, b" wires ", wires);
    write_text(page, fourth, b"\n")
}

// The function is named once it is checked.
// kept: a loop over numbers and names is no plainer, since the fourth name has no number; the numbers come from C (function_check)
pub fn function_line(page: &mut [u8], at: usize, table: &[u8], shares: usize, masks: usize) -> usize
    requires { at + 32 ≤ length page.old }
    ensures wrote { Wrote page.old at (function_line table.now shares masks) page.new result }
    ensures upper_bound { result ≤ at + 32 }
{
    if computes(table, shares, masks, 1) {
        return write_text(page, at, b"function product\n");
    }
    if computes(table, shares, masks, 2) {
        return write_text(page, at, b"function sum\n");
    }
    if computes(table, shares, masks, 3) {
        return write_text(page, at, b"function copy\n");
    }
    write_text(page, at, b"function other\n")
}

// Whether the function check says yes.
fn computes(table: &[u8], shares: usize, masks: usize, function: usize) -> bool
    ensures { result ≡ says_yes (function_check table.now shares masks function) }
{
    matches!(
        table::function_check(table, shares, masks, function),
        Ok(true)
    )
}
