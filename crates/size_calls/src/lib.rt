// The size of a check.
#![tactic(auto)]

ghost use Rattle.std.specs.Prelude.{◌≡◌, [], ◌∷◌};
ghost use Rattle.plan_text.specs.Answers.{check_size};
ghost use Rattle.call_answers.specs.Calls.{got, size_answered};
ghost use Rattle.call_answers.specs.Meaning.{Kept, CheckSizeSays};

use plan_text::write_sets;

// What a check of a text takes: its figures, and the number of sets of each size from 1 to the order at the start of a buffer.
pub fn check_size(
    text: &[u8],
    sets: &mut [u64],
    order: &mut usize,
    shares: &mut usize,
    masks: &mut usize,
    wires: &mut usize,
    bytes: &mut usize,
    offset: &mut usize,
) -> u64
    ensures sets_after { got result (order.new ∷ shares.new ∷ masks.new ∷ wires.new ∷ bytes.new ∷ offset.new ∷ []) sets.new ≡ size_answered (check_size text.now) (order.old ∷ shares.old ∷ masks.old ∷ wires.old ∷ bytes.old ∷ []) offset.old sets.old }
    ensures kept { Kept result (order.new ∷ shares.new ∷ masks.new ∷ wires.new ∷ bytes.new ∷ []) (order.old ∷ shares.old ∷ masks.old ∷ wires.old ∷ bytes.old ∷ []) sets.new sets.old }
    ensures check_size_says { CheckSizeSays result order.new shares.new masks.new wires.new bytes.new offset.new offset.old text.now sets.old sets.new }
{
    // kept: C has a status number and lent numbers, by the contract of `calduvren_check_size`
    match plan_text::check_size(text) {
        Ok(size) => {
            if sets.len() < size.order {
                return sets::Refusal::BufferTooShort.number();
            }
            write_sets(&size.sets[..size.order], sets);
            *order = size.order;
            *shares = size.shares;
            *masks = size.masks;
            *wires = size.wires;
            *bytes = size.bytes;
            0
        }
        Err(fault) => {
            *offset = fault.offset;
            fault.why.number()
        }
    }
}
