// Why a text is refused, and where: what the refusal means, and the line with a mark under the byte.
ghost use Rattle.std.specs.Prelude.{◌≤◌, ◌+◌, length};

use crate::lines;
use crate::saying::{note, say};
use description::{MAX_TEXT_BYTES, Refusal};
use limits::{MAX_MASKS, MAX_ORDER, MAX_WIRES};
use output_lines::MAX_DEPTH;

// So many bytes of a line are shown before the mark, and as many from it on.
const SHOWN_BEFORE: usize = 36;

const SHOWN_FROM: usize = 36;

const SHOWN: usize = SHOWN_BEFORE + SHOWN_FROM;

// The columns before what is shown.
const INDENT: usize = 4;

// The highest number of a mask.
const LAST_MASK: usize = MAX_MASKS - 1;

// What the program says begins with its name; what it shows of the text does not.
pub fn explain(notes: &impl Print, program: &[u8], text: &[u8], why: Refusal, offset: usize) {
    // reading refuses at a place of the text or at its end
    if text.len() < offset {
        return;
    }
    let start = lines::start(text, offset);
    let end = lines::end(text, offset);
    let number = lines::number(text, offset);
    say(notes, program);
    note(
        notes,
        format_args!(": line {number}, byte {}: ", offset - start + 1),
    );
    say_meaning(notes, text, why, offset);
    note(notes, "\n");
    if start < end {
        show_line(notes, program, text, start, end, offset);
    }
}

fn say_meaning(notes: &impl Print, text: &[u8], why: Refusal, offset: usize) {
    match why {
        Refusal::TextTooLong => {
            note(
                notes,
                format_args!("the text is longer than {MAX_TEXT_BYTES} bytes"),
            );
        }
        Refusal::WrongOrderLine => {
            note(
                notes,
                format_args!(
                    "the first line has to be \"ORDER = \" and one digit from 1 to {MAX_ORDER}, and nothing else"
                ),
            );
        }
        Refusal::WrongMasksLine => {
            note(
                notes,
                format_args!(
                    "the second line has to be as \"MASKS = []\" or \"MASKS = [r0, r1]\", masks from r0 to r{LAST_MASK}, none twice, and nothing else"
                ),
            );
        }
        Refusal::NoSuchSymbol => {
            note(
                notes,
                format_args!(
                    "no such symbol: products are as s01, shares as a0 and b0, masks as r0 (to r{LAST_MASK}), share numbers up to the order; there are no operators and no comments"
                ),
            );
        }
        Refusal::MaskNotDeclared => note(notes, "this mask is not named in the second line"),
        Refusal::WrongParenthesis => say_parenthesis(notes, text, offset),
        Refusal::Bar => note(notes, "a bar: registers can not be described yet"),
        Refusal::NestedTooDeep => {
            note(
                notes,
                format_args!("a parenthesis is opened inside {MAX_DEPTH} others"),
            );
        }
        Refusal::WrongLineCount => say_lines(notes, text, offset),
        Refusal::TooManyWires => {
            note(
                notes,
                format_args!("the gadget has more than {MAX_WIRES} wires"),
            );
        }
    }
}

// One number for a parenthesis that is closed and for one that is not: the byte tells.
fn say_parenthesis(notes: &impl Print, text: &[u8], offset: usize) {
    if offset < text.len() && text[offset] == b')' {
        note(
            notes,
            "a parenthesis is closed that was not opened, or that has nothing inside",
        );
    } else {
        note(notes, "a parenthesis is still open where the line ends");
    }
}

// One number for a line too many and for too few: only these are at the text's end.
fn say_lines(notes: &impl Print, text: &[u8], offset: usize) {
    let count = if offset < text.len() {
        "a line too many"
    } else {
        "too few lines"
    };
    note(
        notes,
        format_args!(
            "{count}: each share has one output line, and shares are one more than the order"
        ),
    );
}

// What the line has around the byte, and a mark under it. Two dots say that something is left out.
fn show_line(
    notes: &impl Print,
    program: &[u8],
    text: &[u8],
    start: usize,
    end: usize,
    offset: usize,
)
    requires { (start ≤ offset) × ((offset ≤ end) × (end ≤ length text.now)) }
{
    let from = shown_from(start, offset);
    let to = shown_to(end, offset);
    let before = dots(start < from);
    note(notes, format_args!("    {before}"));
    show_bytes(notes, &text[from..to]);
    note(notes, format_args!("{}\n", dots(to < end)));
    let column = INDENT + before.len() + (offset - from);
    note(notes, format_args!("{:column$}^\n", ""));
    if !text[from..to].iter().all(|byte| prints(*byte)) {
        say(notes, program);
        note(
            notes,
            ": ? stands for a byte that is no printing ASCII character: a tab is no space here, and byte 13 (carriage return) no line end\n",
        );
    }
}

fn shown_from(start: usize, offset: usize) -> usize
    requires { start ≤ offset }
    ensures { (start ≤ result) × ((result ≤ offset) × (offset ≤ result + 36)) }
{
    start.max(offset.saturating_sub(SHOWN_BEFORE))
}

fn shown_to(end: usize, offset: usize) -> usize
    requires { offset ≤ end }
    ensures { (offset ≤ result) × ((result ≤ end) × (result ≤ offset + 36)) }
{
    end.min(offset.saturating_add(SHOWN_FROM))
}

fn dots(is_cut: bool) -> &'static str
    ensures { length result.now ≤ 2 }
{
    if is_cut { ".." } else { "" }
}

// A question mark stands for a byte that does not print.
fn show_bytes(notes: &impl Print, bytes: &[u8])
    requires { length bytes.now ≤ 72 }
{
    let mut shown = [b'?'; SHOWN];
    for (place, byte) in shown.iter_mut().zip(bytes) {
        if prints(*byte) {
            *place = *byte;
        }
    }
    say(notes, &shown[..bytes.len()]);
}

fn prints(byte: u8) -> bool {
    matches!(byte, b' '..=b'~')
}
