// The program isw: takes an order as its argument and prints the multiplication of Ishai, Sahai and Wagner at that order, a text for `report`.
// Standard output gets the text and nothing else; for anything but an order that is written, standard error gets a line that says so.
#![tactic(auto)]

use console::arguments::only_number;
use console::output;
use console::saying::note;
use description::MAX_TEXT_BYTES;
use isw_gadget::MAX_ISW_ORDER;

// No number of more digits is an order.
const MAX_DIGITS: usize = 32;

fn main(rt: HostRuntime) {
    let notes = rt.stderr();
    let mut word = [0u8; MAX_DIGITS];
    match only_number(&rt, &mut word) {
        Ok(order) => answer(&rt, &notes, order),
        Err(_) => say_usage(&notes),
    }
}

// Which numbers are orders is the word of the entry alone.
fn answer(rt: &impl Print, notes: &impl Print, order: usize) {
    let mut text = [0u8; MAX_TEXT_BYTES];
    match isw_text::isw_text(order, &mut text) {
        Ok(length) => {
            output::print(rt, notes, "isw: standard output", &text[..length]);
        }
        // a buffer for the longest text is never too short
        Err(why) => say_refused(notes, why.number()),
    }
}

fn say_refused(notes: &impl Print, number: u64) {
    note(
        notes,
        format_args!(
            "isw: refused {number}: the order has to be a number from 1 to {MAX_ISW_ORDER}\n"
        ),
    );
}

fn say_usage(notes: &impl Print) {
    note(
        notes,
        format_args!(
            "isw: usage: isw ORDER    (a number from 1 to {MAX_ISW_ORDER}; the text goes to standard output)\n"
        ),
    );
}
