// Texts: reading, the text part of a wire.
#![tactic(auto)]

ghost use Rattle.std.specs.Prelude.{◌≡◌, [], ◌∷◌};
ghost use Rattle.reader.specs.Answers.{read_text, part_check};
ghost use Rattle.call_answers.specs.Calls.{got, answered, lent_read};
ghost use Rattle.call_answers.specs.Meaning.{Kept, ReadSays, PartSays};

// Reads a text into the wires that its grammar gives.
pub fn read_text(
    text: &[u8],
    table: &mut [u8],
    order: &mut usize,
    shares: &mut usize,
    masks: &mut usize,
    wires: &mut usize,
    offset: &mut usize,
) -> u64
    ensures table_after { got result (order.new ∷ shares.new ∷ masks.new ∷ wires.new ∷ offset.new ∷ []) table.new ≡ lent_read (read_text text.now table.old) (order.old ∷ shares.old ∷ masks.old ∷ wires.old ∷ []) offset.old }
    ensures kept { Kept result (order.new ∷ shares.new ∷ masks.new ∷ wires.new ∷ []) (order.old ∷ shares.old ∷ masks.old ∷ wires.old ∷ []) table.new table.old }
    ensures read_says { ReadSays result order.new shares.new masks.new wires.new text.now table.old table.new }
{
    // kept: C has a status number and lent numbers, by the contract of `calduvren_read_text`
    match reader::read_text(text, table) {
        Ok(read) => {
            *order = read.order;
            *shares = read.shares;
            *masks = read.masks;
            *wires = read.wires;
            0
        }
        Err(fault) => {
            *offset = fault.offset;
            fault.why.number()
        }
    }
}

// Where the part of the text that computes a wire stands.
pub fn text_part(
    text: &[u8],
    table: &[u8],
    wire: usize,
    offset: &mut usize,
    length: &mut usize,
) -> u64
    ensures length_after { got result (offset.new ∷ length.new ∷ []) [] ≡ answered (part_check text.now table.now wire) (offset.old ∷ length.old ∷ []) [] }
    ensures kept { Kept result (offset.new ∷ length.new ∷ []) (offset.old ∷ length.old ∷ []) [] [] }
    ensures part_says { PartSays result offset.new length.new text.now table.now wire }
{
    match reader::text_part_check(text, table, wire) {
        Ok(part) => {
            *offset = part.offset;
            *length = part.length;
            0
        }
        Err(why) => why.number(),
    }
}
