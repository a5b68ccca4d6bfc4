// The line of a place in a text.
ghost use Rattle.std.specs.Prelude.{◌≤◌, length};

use tokens::bytes::LINE_END;

// Where the line starts: after the last line end before the place.
pub fn start(text: &[u8], at: usize) -> usize
    requires { at ≤ length text.now }
    ensures { result ≤ at }
{
    match text[..at].iter().rposition(|byte| *byte == LINE_END) {
        Some(last) => last + 1,
        None => 0,
    }
}

// Where the line ends: at the first line end from the place on, or where the text does.
pub fn end(text: &[u8], at: usize) -> usize
    requires { at ≤ length text.now }
    ensures lower_bound { at ≤ result }
    ensures upper_bound { result ≤ length text.now }
{
    match text[at..].iter().position(|byte| *byte == LINE_END) {
        Some(length) => at + length,
        None => text.len(),
    }
}

// Where the next line starts, or the text ends.
pub fn next(text: &[u8], at: usize) -> usize
    requires { at ≤ length text.now }
    ensures lower_bound { at ≤ result }
    ensures upper_bound { result ≤ length text.now }
{
    text.len().min(end(text, at) + 1)
}

// The number of the line, from 1.
pub fn number(text: &[u8], at: usize) -> u64
    requires { at ≤ length text.now }
{
    let ends = text[..at].iter().filter(|byte| **byte == LINE_END).count();
    ends as u64 + 1
}
