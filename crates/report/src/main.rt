// The report program: reads a description text from standard input and prints the report on it. Standard output gets the report and nothing
// else. Standard error gets what helps a reader: what is wrong with the function, how long the check will take, where a text is refused and
// why, which parts of the text compute the wires of a break.
#![tactic(auto)]

ghost use Rattle.std.specs.Prelude.{◌≤◌, length, IfSome};
ghost use Rattle.report_lines.specs.Report.{max_report};

use console::input::{INPUT_BYTES, read_input};
use console::{output, refusals};
use limits::{MAX_TABLE_BYTES, RECORD_BYTES};
use report_text::MAX_REPORT;

mod breaks;
mod functions;
mod sizes;
mod symbols;

fn main(rt: HostRuntime) {
    let notes = rt.stderr();
    let mut text = [0u8; INPUT_BYTES];
    let input = read_input(&mut rt.stdin(), &notes, "report: standard input", &mut text);
    if let Ok(length) = input {
        answer(&rt, &notes, &text[..length]);
    }
}

// The text is read here too, for the notes: the report itself is only printed.
fn answer(rt: &impl Print, notes: &impl Print, text: &[u8]) {
    let mut table = [0u8; MAX_TABLE_BYTES];
    match reader::read_text(text, &mut table) {
        Err(fault) => {
            let mut page = [0u8; MAX_REPORT];
            if print_report(rt, notes, text, &mut page).is_some() {
                refusals::explain(notes, b"report", text, fault.why, fault.offset);
            }
        }
        Ok(read) => {
            let table = &table[..RECORD_BYTES * read.wires];
            answer_read(rt, notes, text, table, read.shares, read.masks);
        }
    }
}

// The report on a text that was read. Before a search that may take days all is said that is known without it.
fn answer_read(
    rt: &impl Print,
    notes: &impl Print,
    text: &[u8],
    table: &[u8],
    shares: usize,
    masks: usize,
) {
    let sets = sizes::sets_to_look_at(text);
    let is_long = sizes::is_long(sets);
    if is_long {
        functions::explain(notes, table, shares, masks);
        sizes::warn(notes, sets);
    }
    let mut page = [0u8; MAX_REPORT];
    if let Some(length) = print_report(rt, notes, text, &mut page) {
        if !is_long {
            functions::explain(notes, table, shares, masks);
        }
        breaks::explain(notes, text, table, shares, masks, &page[..length]);
    }
}

// Prints the report and gives its length, or nothing where it could not be printed.
fn print_report(rt: &impl Print, notes: &impl Print, text: &[u8], page: &mut [u8]) -> Option<usize>
    requires { max_report ≤ length page.old }
    ensures { IfSome result (λ size. size ≤ length page.new) }
{
    // a page of MAX_REPORT bytes is never too short
    let length = report_text::report(text, page).ok()?;
    if output::print(rt, notes, "report: standard output", &page[..length]) {
        return Some(length);
    }
    None
}
