// How many sets the two verdicts have to answer for, and how long a visit to each takes.
use console::saying::{note, say};
use console::times::{SETS_A_SECOND, TIME_BYTES, sets_of_both, write_time};

// From so many sets on a check may be long: some seconds.
const LONG: u64 = 1_000_000_000;

// The sets of both notions that a check of the text has to answer for; of a text that is refused there are none.
pub fn sets_to_look_at(text: &[u8]) -> u64 {
    let sets = plan_text::sets_told(plan_text::check_size(text));
    sets_of_both(plan_text::total(&sets))
}

pub fn is_long(sets: u64) -> bool {
    LONG <= sets
}

// Says how long a visit to each of so many sets takes. How many of them the search passes over is not known before it has ended.
pub fn warn(notes: &impl Print, sets: u64) {
    note(
        notes,
        format_args!("report: up to {sets} sets to look at, some "),
    );
    say_time(notes, sets / SETS_A_SECOND);
    note(
        notes,
        " if each is visited, mostly far less; docs/GUIDE.md tells how to divide them over machines\n",
    );
}

fn say_time(notes: &impl Print, seconds: u64) {
    let mut words = [0u8; TIME_BYTES];
    let end = write_time(&mut words, 0, seconds);
    say(notes, &words[..end]);
}
