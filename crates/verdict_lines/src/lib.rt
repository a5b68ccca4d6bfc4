// The line of a notion in a report: what the verdict says, and of a break the wires and the operands that leak. It sees only what the verdict
// promises, and asks for room on the page.
#![tactic(auto)]

ghost use Rattle.std.specs.Prelude.{◌≤◌, ◌+◌, ◌*◌, length};
ghost use Rattle.verdict_answers.specs.Answers.{verdict_of, set_dependence};
ghost use Rattle.pages.specs.Page.{Wrote};
ghost use Rattle.verdict_lines.specs.Lines.{notion_name, empty_set, broken_said, verdict_said, notion_line};

use limits::MAX_SIZE;
use operand_words::operands_said;
use pages::{write_named, write_text, write_wires};
use verdict_answers::Judged;

// The verdict for NI, 1, or SNI, 2, at an order.
// kept: the numbers 1 and 2 come from C, and the clause `wrote` says the line of any number
pub fn notion_line(
    page: &mut [u8],
    at: usize,
    table: &[u8],
    shares: usize,
    masks: usize,
    notion: usize,
    order: usize,
) -> usize
    requires { at + 176 ≤ length page.old }
    ensures wrote { Wrote page.old at (notion_line table.now shares masks notion order) page.new result }
    ensures upper_bound { result ≤ at + 176 }
{
    let named = notion_name(page, at, notion);
    let told = verdict_said(page, named, table, shares, masks, notion, order);
    write_text(page, told, b"\n")
}

fn notion_name(page: &mut [u8], at: usize, notion: usize) -> usize
    requires { at + 3 ≤ length page.old }
    ensures wrote { Wrote page.old at (notion_name notion) page.new result }
    ensures upper_bound { result ≤ at + 3 }
{
    if notion == 1 {
        return write_text(page, at, b"NI");
    }
    write_text(page, at, b"SNI")
}

// What a verdict says.
fn verdict_said(
    page: &mut [u8],
    at: usize,
    table: &[u8],
    shares: usize,
    masks: usize,
    notion: usize,
    order: usize,
) -> usize
    requires { at + 172 ≤ length page.old }
    ensures wrote { Wrote page.old at (verdict_said (set_dependence table.now shares masks notion) (verdict_of table.now shares masks notion order empty_set)) page.new result }
    ensures upper_bound { result ≤ at + 172 }
{
    let mut set = [0u16; MAX_SIZE];
    let answer = directed::directed_verdict(table, shares, masks, notion, order, &mut set);
    match answer {
        Ok(judged) => match judged {
            Judged::Holds => write_text(page, at, b" holds"),
            Judged::Broken { size } => {
                broken_said(page, at, table, shares, masks, notion, &set[0..size])
            }
        },
        Err(why) => write_named(page, at, b" refused ", why.number() as usize),
    }
}

// The wire numbers of a set that breaks the notion, and the operands that leak by it.
fn broken_said(
    page: &mut [u8],
    at: usize,
    table: &[u8],
    shares: usize,
    masks: usize,
    notion: usize,
    set: &[u16],
) -> usize
    requires { at + 15 + 21 * length set.now ≤ length page.old }
    ensures wrote { Wrote page.old at (broken_said (set_dependence table.now shares masks notion) set.now) page.new result }
    ensures upper_bound { result ≤ at + 15 + 21 * length set.now }
{
    let next = write_text(page, at, b" broken");
    let end = write_wires(page, next, set);
    operands_said(page, end, table, shares, masks, notion, set)
}
