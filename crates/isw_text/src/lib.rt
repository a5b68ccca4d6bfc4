// The multiplication of Ishai, Sahai and Wagner, written for an order (request No. 2). Any order and any buffer may be given: an order that is not
// written, and a buffer that is too short, are refused, and the buffer is left as it was.
#![tactic(auto)]

ghost use Rattle.std.specs.Prelude.{◌≡◌};
ghost use Rattle.isw_gadget.specs.Answers.{isw_told, isw_written};
ghost use Rattle.isw_gadget.specs.Reads.{IswSays};

use description::MAX_TEXT_BYTES;
use isw_gadget::MAX_ISW_ORDER;
pub use isw_gadget::Refusal;
use isw_lines::whole_text;

// Writes the text to the start of a buffer, and gives its length.
pub fn isw_text(order: usize, text: &mut [u8]) -> Result<usize, Refusal>
    ensures text_after { isw_told result text.new ≡ isw_written order text.old }
    ensures isw_says { IswSays result order text.old text.new }
{
    if order < 1 {
        return Err(Refusal::OrderOutOfRange);
    }
    if MAX_ISW_ORDER < order {
        return Err(Refusal::OrderOutOfRange);
    }
    let mut page = [0u8; MAX_TEXT_BYTES];
    let length = whole_text(&mut page, order);
    if text.len() < length {
        return Err(Refusal::TextDoesNotFit);
    }
    text[0..length].copy_from_slice(&page[0..length]);
    Ok(length)
}
