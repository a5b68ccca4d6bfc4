// What is written to a caller's page: the report, ISW written for an order.
#![tactic(auto)]

ghost use Rattle.std.specs.Prelude.{◌≡◌, [], ◌∷◌};
ghost use Rattle.report_text.specs.Report.{report_text};
ghost use Rattle.isw_gadget.specs.Answers.{isw_written};
ghost use Rattle.call_answers.specs.Calls.{got, lent_answered};
ghost use Rattle.call_answers.specs.Meaning.{Kept, ReportSays, IswTextSays};

// Writes the report on a text to the start of a buffer.
pub fn report_text(text: &[u8], buffer: &mut [u8], length: &mut usize) -> u64
    ensures buffer_after { got result (length.new ∷ []) buffer.new ≡ lent_answered (report_text text.now buffer.old) (length.old ∷ []) }
    ensures kept { Kept result (length.new ∷ []) (length.old ∷ []) buffer.new buffer.old }
    ensures report_says { ReportSays result length.new text.now buffer.old buffer.new }
{
    match report_text::report(text, buffer) {
        Err(why) => why.number(),
        Ok(size) => {
            *length = size;
            0
        }
    }
}

// Writes the multiplication of Ishai, Sahai and Wagner at an order to the start of a buffer.
pub fn isw_text(order: usize, text: &mut [u8], length: &mut usize) -> u64
    ensures text_after { got result (length.new ∷ []) text.new ≡ lent_answered (isw_written order text.old) (length.old ∷ []) }
    ensures kept { Kept result (length.new ∷ []) (length.old ∷ []) text.new text.old }
    ensures isw_text_says { IswTextSays result length.new order text.old text.new }
{
    match isw_text::isw_text(order, text) {
        Err(why) => why.number(),
        Ok(written) => {
            *length = written;
            0
        }
    }
}
