// Reading the whole text into a table of the calling code's own, none of a caller's being lent: what it holds after a refusal, and past the last
// record, is nobody's concern. Refusal 10 is here for over 512 wires alone.
#![tactic(auto)]

ghost use Rattle.std.specs.Prelude.{◌≡◌, ◌≤◌, length, Some};
ghost use Rattle.limits.specs.Limits.{max_order, max_table_bytes};
ghost use Rattle.description.specs.Header.{order_line};
ghost use Rattle.description.specs.Run.{second_line, max_text};
ghost use Rattle.scratch_reader.specs.Scratch.{LinesListed, SecondReads, ScratchReads};

use description::{Fault, MAX_TEXT_BYTES, Masks, Refusal};
use header_lines::{masks_line, order_line};
use limits::MAX_WIRES;
use output_lines::lines;

// What a text that was read gives: its order, shares, mask count and wire count.
#[derive(Clone, Copy)]
pub struct Reading {
    pub order: usize,
    pub shares: usize,
    pub masks: usize,
    pub wires: usize,
}

// Where the second line starts: `ORDER = `, a digit and a line end stand before it.
const SECOND_LINE: usize = 10;

// Reads a text into a table of 12,288 bytes, which has room for every text that is not refused.
pub fn read_scratch(text: &[u8], scratch: &mut [u8]) -> Result<Reading, Fault>
    requires { length scratch.old ≡ max_table_bytes }
    ensures { ScratchReads text.now scratch.new result }
{
    if MAX_TEXT_BYTES < text.len() {
        return Err(Fault {
            why: Refusal::TextTooLong,
            offset: MAX_TEXT_BYTES,
        });
    }
    let order = order_line(text).ok_or(Fault {
        why: Refusal::WrongOrderLine,
        offset: 0,
    })?;
    read_second(text, scratch, order)
}

// Where the second line starts, or the text's length.
fn second_line(text: &[u8]) -> usize
    ensures { result ≡ second_line text.now }
{
    text.len().min(SECOND_LINE)
}

// The second line and the output lines.
fn read_second(text: &[u8], scratch: &mut [u8], order: usize) -> Result<Reading, Fault>
    requires { (length text.now ≤ max_text) × (length scratch.old ≡ max_table_bytes) × (order_line text.now ≡ Some order) }
    ensures { SecondReads text.now order scratch.new result }
{
    let from = second_line(text);
    let masks = masks_line(text, from).ok_or(Fault {
        why: Refusal::WrongMasksLine,
        offset: from,
    })?;
    read_lines(text, scratch, order, masks)
}

// The output lines, read into a table of 12,288 bytes.
fn read_lines(text: &[u8], scratch: &mut [u8], order: usize, masks: Masks) -> Result<Reading, Fault>
    requires { (length text.now ≤ max_text) × (length scratch.old ≡ max_table_bytes) × (order ≤ max_order) × (masks.end ≤ length text.now) }
    ensures { LinesListed text.now order masks scratch.new result }
{
    let done = lines(text, scratch, order + 1, masks.declared, masks.end)?;
    // wires are counted on past the last that is written
    if MAX_WIRES < done.wires {
        return Err(Fault {
            why: Refusal::TooManyWires,
            offset: text.len(),
        });
    }
    Ok(Reading {
        order: order,
        shares: order + 1,
        masks: masks.count,
        wires: done.wires,
    })
}
