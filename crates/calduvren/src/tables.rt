// The operations on a wire table.
ghost use Rattle.std.specs.Prelude.{◌≡◌, [], ◌∷◌};
ghost use Rattle.table.specs.Answers.{function_check};
ghost use Rattle.verdict_answers.specs.Answers.{verdict_of, range_check, set_dependence};
ghost use Rattle.call_answers.specs.Calls.{got, answered, lent_judged};
ghost use Rattle.call_answers.specs.Meaning.{Kept, FunctionSays, VerdictSays, VerdictShows, RangeShows, DependenceSays};

// Whether the outer wires add up to a function.
#[unsafe(no_mangle)]
pub extern "C" fn calduvren_function_check(
    table: &[u8],
    shares: usize,
    masks: usize,
    function: usize,
    yes: &mut u64,
) -> u64
    ensures yes_after { got result (yes.new ∷ []) [] ≡ answered (function_check table.now shares masks function) (yes.old ∷ []) [] }
    ensures kept { Kept result (yes.new ∷ []) (yes.old ∷ []) [] [] }
    ensures function_says { FunctionSays result yes.new table.now shares masks function }
{
    table_calls::function_check(table, shares, masks, function, yes)
}

// Whether the table holds the notion at an order.
#[unsafe(no_mangle)]
pub extern "C" fn calduvren_verdict(
    table: &[u8],
    shares: usize,
    masks: usize,
    notion: usize,
    order: usize,
    set: &mut [u16],
    holds: &mut u64,
    size: &mut usize,
) -> u64
    ensures set_after { got result (holds.new ∷ size.new ∷ []) set.new ≡ lent_judged (verdict_of table.now shares masks notion order set.old) (holds.old ∷ size.old ∷ []) }
    ensures kept { Kept result (holds.new ∷ size.new ∷ []) (holds.old ∷ size.old ∷ []) set.new set.old }
    ensures verdict_shows { VerdictShows result holds.new size.new table.now shares masks notion order set.old set.new }
    ensures verdict_says { VerdictSays result holds.new size.new table.now shares masks notion order set.new }
{
    verdict_calls::verdict(table, shares, masks, notion, order, set, holds, size)
}

// The same by the directed search, which does not visit every set.
#[unsafe(no_mangle)]
pub extern "C" fn calduvren_directed_verdict(
    table: &[u8],
    shares: usize,
    masks: usize,
    notion: usize,
    order: usize,
    set: &mut [u16],
    holds: &mut u64,
    size: &mut usize,
) -> u64
    ensures set_after { got result (holds.new ∷ size.new ∷ []) set.new ≡ lent_judged (verdict_of table.now shares masks notion order set.old) (holds.old ∷ size.old ∷ []) }
    ensures kept { Kept result (holds.new ∷ size.new ∷ []) (holds.old ∷ size.old ∷ []) set.new set.old }
    ensures verdict_shows { VerdictShows result holds.new size.new table.now shares masks notion order set.old set.new }
    ensures verdict_says { VerdictSays result holds.new size.new table.now shares masks notion order set.new }
{
    verdict_calls::directed_verdict(table, shares, masks, notion, order, set, holds, size)
}

// Whether a set of one size breaks the notion at a rank from `from` up to, without, `to`.
#[unsafe(no_mangle)]
pub extern "C" fn calduvren_range_check(
    table: &[u8],
    shares: usize,
    masks: usize,
    notion: usize,
    size: usize,
    from: u64,
    to: u64,
    set: &mut [u16],
    clean: &mut u64,
    found: &mut usize,
    rank: &mut u64,
) -> u64
    ensures set_after { got result (clean.new ∷ found.new ∷ rank.new ∷ []) set.new ≡ lent_judged (range_check table.now shares masks notion size from to set.old) (clean.old ∷ found.old ∷ rank.old ∷ []) }
    ensures kept { Kept result (clean.new ∷ found.new ∷ rank.new ∷ []) (clean.old ∷ found.old ∷ rank.old ∷ []) set.new set.old }
    ensures range_shows { RangeShows result clean.new found.new rank.new table.now shares masks notion size from to set.old set.new }
{
    table_calls::range_check(
        table, shares, masks, notion, size, from, to, set, clean, found, rank,
    )
}

// On how many shares of a and of b a set of wires depends, how many the notion allows it, and whether a mask is left.
#[unsafe(no_mangle)]
pub extern "C" fn calduvren_set_dependence(
    table: &[u8],
    shares: usize,
    masks: usize,
    notion: usize,
    set: &[u16],
    of_a: &mut usize,
    of_b: &mut usize,
    allowed: &mut usize,
    masked: &mut u64,
) -> u64
    ensures masked_after { got result (of_a.new ∷ of_b.new ∷ allowed.new ∷ masked.new ∷ []) [] ≡ answered (set_dependence table.now shares masks notion set.now) (of_a.old ∷ of_b.old ∷ allowed.old ∷ masked.old ∷ []) [] }
    ensures kept { Kept result (of_a.new ∷ of_b.new ∷ allowed.new ∷ masked.new ∷ []) (of_a.old ∷ of_b.old ∷ allowed.old ∷ masked.old ∷ []) [] [] }
    ensures dependence_says { DependenceSays result of_a.new of_b.new allowed.new masked.new table.now shares masks notion set.now }
{
    table_calls::set_dependence(
        table, shares, masks, notion, set, of_a, of_b, allowed, masked,
    )
}
