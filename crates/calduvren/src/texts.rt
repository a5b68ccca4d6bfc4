// Texts: reading, the size of a check, the text part of a wire, the report, ISW written for an order.
ghost use Rattle.std.specs.Prelude.{◌≡◌, [], ◌∷◌};
ghost use Rattle.reader.specs.Answers.{read_text, part_check};
ghost use Rattle.plan_text.specs.Answers.{check_size};
ghost use Rattle.report_text.specs.Report.{report_text};
ghost use Rattle.isw_gadget.specs.Answers.{isw_written};
ghost use Rattle.call_answers.specs.Calls.{got, answered, lent_answered, lent_read, size_answered};
ghost use Rattle.call_answers.specs.Meaning.{Kept, ReadSays, CheckSizeSays, PartSays, ReportSays, IswTextSays};

// Reads a text into the wires that its grammar gives.
#[unsafe(no_mangle)]
pub extern "C" fn calduvren_read_text(
    text: &[u8],
    table: &mut [u8],
    order: &mut usize,
    shares: &mut usize,
    masks: &mut usize,
    wires: &mut usize,
    offset: &mut usize,
) -> u64
    ensures table_after { got result (order.new ∷ shares.new ∷ masks.new ∷ wires.new ∷ offset.new ∷ []) table.new ≡ lent_read (read_text text.now table.old) (order.old ∷ shares.old ∷ masks.old ∷ wires.old ∷ []) offset.old }
    ensures kept { Kept result (order.new ∷ shares.new ∷ masks.new ∷ wires.new ∷ []) (order.old ∷ shares.old ∷ masks.old ∷ wires.old ∷ []) table.new table.old }
    ensures read_says { ReadSays result order.new shares.new masks.new wires.new text.now table.old table.new }
{
    text_calls::read_text(text, table, order, shares, masks, wires, offset)
}

// What a check of a text takes: its figures, and the number of sets of each size from 1 to the order at the start of a buffer.
#[unsafe(no_mangle)]
pub extern "C" fn calduvren_check_size(
    text: &[u8],
    sets: &mut [u64],
    order: &mut usize,
    shares: &mut usize,
    masks: &mut usize,
    wires: &mut usize,
    bytes: &mut usize,
    offset: &mut usize,
) -> u64
    ensures sets_after { got result (order.new ∷ shares.new ∷ masks.new ∷ wires.new ∷ bytes.new ∷ offset.new ∷ []) sets.new ≡ size_answered (check_size text.now) (order.old ∷ shares.old ∷ masks.old ∷ wires.old ∷ bytes.old ∷ []) offset.old sets.old }
    ensures kept { Kept result (order.new ∷ shares.new ∷ masks.new ∷ wires.new ∷ bytes.new ∷ []) (order.old ∷ shares.old ∷ masks.old ∷ wires.old ∷ bytes.old ∷ []) sets.new sets.old }
    ensures check_size_says { CheckSizeSays result order.new shares.new masks.new wires.new bytes.new offset.new offset.old text.now sets.old sets.new }
{
    size_calls::check_size(text, sets, order, shares, masks, wires, bytes, offset)
}

// Where the part of the text that computes a wire stands.
#[unsafe(no_mangle)]
pub extern "C" fn calduvren_text_part(
    text: &[u8],
    table: &[u8],
    wire: usize,
    offset: &mut usize,
    length: &mut usize,
) -> u64
    ensures length_after { got result (offset.new ∷ length.new ∷ []) [] ≡ answered (part_check text.now table.now wire) (offset.old ∷ length.old ∷ []) [] }
    ensures kept { Kept result (offset.new ∷ length.new ∷ []) (offset.old ∷ length.old ∷ []) [] [] }
    ensures part_says { PartSays result offset.new length.new text.now table.now wire }
{
    text_calls::text_part(text, table, wire, offset, length)
}

// Writes the report on a text to the start of a buffer.
#[unsafe(no_mangle)]
pub extern "C" fn calduvren_report_text(text: &[u8], buffer: &mut [u8], length: &mut usize) -> u64
    ensures buffer_after { got result (length.new ∷ []) buffer.new ≡ lent_answered (report_text text.now buffer.old) (length.old ∷ []) }
    ensures kept { Kept result (length.new ∷ []) (length.old ∷ []) buffer.new buffer.old }
    ensures report_says { ReportSays result length.new text.now buffer.old buffer.new }
{
    page_calls::report_text(text, buffer, length)
}

// Writes the multiplication of Ishai, Sahai and Wagner at an order to the start of a buffer.
#[unsafe(no_mangle)]
pub extern "C" fn calduvren_isw_text(order: usize, text: &mut [u8], length: &mut usize) -> u64
    ensures text_after { got result (length.new ∷ []) text.new ≡ lent_answered (isw_written order text.old) (length.old ∷ []) }
    ensures kept { Kept result (length.new ∷ []) (length.old ∷ []) text.new text.old }
    ensures isw_text_says { IswTextSays result length.new order text.old text.new }
{
    page_calls::isw_text(order, text, length)
}
