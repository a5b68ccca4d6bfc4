// The program plan: reads a description text from standard input and prints what a check of it takes, for a person who books machines: the
// gadget's figures, the number of sets of each size, and how long both verdicts may take. Its argument is the number of sets that a machine
// looks at in a second. Standard output gets the plan and nothing else; where there is none, standard error says why.
#![tactic(auto)]

ghost use Rattle.std.specs.Prelude.{◌<◌};

use console::arguments::{NoNumber, only_number};
use console::input::{INPUT_BYTES, read_input};
use console::saying::note;
use console::times::{SETS_A_SECOND, sets_of_both};
use console::{output, refusals};
use description::Fault;
use std::io::Read;

mod rows;

// A rate has no more digits: all numbers of so many are exact.
const RATE_DIGITS: usize = 18;

// No plan is longer: a table of MAX_ORDER + 6 rows, and a line.
const PLAN_BYTES: usize = 1024;

fn main(rt: HostRuntime) {
    let notes = rt.stderr();
    let mut word = [0u8; RATE_DIGITS];
    match only_number(&rt, &mut word) {
        Err(NoNumber::Missing) => plan(&rt, &notes, &mut rt.stdin(), SETS_A_SECOND),
        Ok(0) | Err(NoNumber::Other) => say_usage(&notes),
        Ok(rate) => plan(&rt, &notes, &mut rt.stdin(), rate as u64),
    }
}

// Reads the text and plans its check.
fn plan(rt: &impl Print, notes: &impl Print, reader: &mut impl Read, rate: u64)
    requires { 0 < rate }
{
    let mut text = [0u8; INPUT_BYTES];
    if let Ok(length) = read_input(reader, notes, "plan: standard input", &mut text) {
        answer(rt, notes, &text[..length], rate);
    }
}

// The plan goes to a page first and is printed by one call: a reader who leaves after its first lines is no failure.
fn answer(rt: &impl Print, notes: &impl Print, text: &[u8], rate: u64)
    requires { 0 < rate }
{
    match plan_text::check_size(text) {
        Ok(size) => {
            let all = plan_text::total(&size.sets);
            let mut page = [b' '; PLAN_BYTES];
            let figures = rows::write_figures(&mut page, &size);
            let counts = rows::write_counts(&mut page, figures, size.order, &size.sets);
            let totals = rows::write_row(&mut page, counts, b"sets in all", all);
            let end = rows::write_time_line(&mut page, totals, sets_of_both(all), rate);
            output::print(rt, notes, "plan: standard output", &page[..end]);
        }
        Err(fault) => say_refused(notes, text, fault),
    }
}

fn say_refused(notes: &impl Print, text: &[u8], fault: Fault) {
    note(
        notes,
        format_args!("plan: refused {} at {}\n", fault.why.number(), fault.offset),
    );
    refusals::explain(notes, b"plan", text, fault.why, fault.offset);
}

fn say_usage(notes: &impl Print) {
    note(
        notes,
        format_args!(
            "plan: usage: plan [RATE]    (RATE: sets a second, a number from 1 on of at most {RATE_DIGITS} digits, without leading zeros; the text comes from standard input)\n"
        ),
    );
}
