// The operations on a wire table.
#![tactic(auto)]

ghost use Rattle.std.specs.Prelude.{◌≡◌, [], ◌∷◌};
ghost use Rattle.table.specs.Answers.{function_check};
ghost use Rattle.verdict_answers.specs.Answers.{range_check, set_dependence};
ghost use Rattle.call_answers.specs.Calls.{got, answered, lent_judged};
ghost use Rattle.call_answers.specs.Meaning.{Kept, FunctionSays, RangeShows, DependenceSays};

use verdict_answers::Checked;

// Whether the outer wires add up to a function.
// kept: a status and lent numbers, and 1 and 0 in them, are what C gets (calduvren::calduvren_function_check and the two below)
pub fn function_check(
    table: &[u8],
    shares: usize,
    masks: usize,
    function: usize,
    yes: &mut u64,
) -> u64
    ensures yes_after { got result (yes.new ∷ []) [] ≡ answered (function_check table.now shares masks function) (yes.old ∷ []) [] }
    ensures kept { Kept result (yes.new ∷ []) (yes.old ∷ []) [] [] }
    ensures function_says { FunctionSays result yes.new table.now shares masks function }
{
    match table::function_check(table, shares, masks, function) {
        Ok(adds) => {
            *yes = u64::from(adds);
            0
        }
        Err(why) => why.number(),
    }
}

// Whether a set of one size breaks the notion at a rank from `from` up to, without, `to`.
pub fn range_check(
    table: &[u8],
    shares: usize,
    masks: usize,
    notion: usize,
    size: usize,
    from: u64,
    to: u64,
    set: &mut [u16],
    clean: &mut u64,
    found: &mut usize,
    rank: &mut u64,
) -> u64
    ensures set_after { got result (clean.new ∷ found.new ∷ rank.new ∷ []) set.new ≡ lent_judged (range_check table.now shares masks notion size from to set.old) (clean.old ∷ found.old ∷ rank.old ∷ []) }
    ensures kept { Kept result (clean.new ∷ found.new ∷ rank.new ∷ []) (clean.old ∷ found.old ∷ rank.old ∷ []) set.new set.old }
    ensures range_shows { RangeShows result clean.new found.new rank.new table.now shares masks notion size from to set.old set.new }
{
    match verdict::range_check(table, shares, masks, notion, size, from, to, set) {
        Ok(Checked::Clean) => {
            *clean = 1;
            0
        }
        Ok(
            Checked::Found {
                size: wires,
                rank: place,
            },
        ) => {
            *clean = 0;
            *found = wires;
            *rank = place;
            0
        }
        Err(why) => why.number(),
    }
}

// On how many shares of a and of b a set of wires depends, how many the notion allows it, and whether a mask is left.
pub fn set_dependence(
    table: &[u8],
    shares: usize,
    masks: usize,
    notion: usize,
    set: &[u16],
    of_a: &mut usize,
    of_b: &mut usize,
    allowed: &mut usize,
    masked: &mut u64,
) -> u64
    ensures masked_after { got result (of_a.new ∷ of_b.new ∷ allowed.new ∷ masked.new ∷ []) [] ≡ answered (set_dependence table.now shares masks notion set.now) (of_a.old ∷ of_b.old ∷ allowed.old ∷ masked.old ∷ []) [] }
    ensures kept { Kept result (of_a.new ∷ of_b.new ∷ allowed.new ∷ masked.new ∷ []) (of_a.old ∷ of_b.old ∷ allowed.old ∷ masked.old ∷ []) [] [] }
    ensures dependence_says { DependenceSays result of_a.new of_b.new allowed.new masked.new table.now shares masks notion set.now }
{
    match verdict::set_dependence(table, shares, masks, notion, set) {
        Ok(on) => {
            *of_a = on.of_a;
            *of_b = on.of_b;
            *allowed = on.allowed;
            *masked = u64::from(on.masked);
            0
        }
        Err(why) => why.number(),
    }
}
