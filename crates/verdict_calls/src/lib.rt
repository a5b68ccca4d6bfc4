// The two verdicts for callers in C: what is told stands once, for either search.
#![tactic(auto)]

ghost use Rattle.std.specs.Prelude.{◌≡◌, [], ◌∷◌};
ghost use Rattle.verdict_answers.specs.Answers.{verdict_of};
ghost use Rattle.call_answers.specs.Calls.{got, lent_judged};
ghost use Rattle.call_answers.specs.Meaning.{Kept, VerdictSays, VerdictShows};

use judging::{Directed, Search, Walk, judge};
use verdict_answers::Judged;

// Whether a table holds a notion at an order, by either search.
fn judged<S: Search>(
    table: &[u8],
    shares: usize,
    masks: usize,
    notion: usize,
    order: usize,
    set: &mut [u16],
    holds: &mut u64,
    size: &mut usize,
) -> u64
    ensures set_after { got result (holds.new ∷ size.new ∷ []) set.new ≡ lent_judged (verdict_of table.now shares masks notion order set.old) (holds.old ∷ size.old ∷ []) }
    ensures kept { Kept result (holds.new ∷ size.new ∷ []) (holds.old ∷ size.old ∷ []) set.new set.old }
    ensures verdict_shows { VerdictShows result holds.new size.new table.now shares masks notion order set.old set.new }
    ensures verdict_says { VerdictSays result holds.new size.new table.now shares masks notion order set.new }
{
    match judge::<S>(table, shares, masks, notion, order, set) {
        Ok(Judged::Holds) => {
            *holds = 1;
            0
        }
        Ok(Judged::Broken { size: wires }) => {
            *holds = 0;
            *size = wires;
            0
        }
        Err(why) => why.number(),
    }
}

// The verdict, by nested loops over size and rank.
// kept: C has a function for each search, and takes no type parameter (calduvren::calduvren_verdict)
pub fn verdict(
    table: &[u8],
    shares: usize,
    masks: usize,
    notion: usize,
    order: usize,
    set: &mut [u16],
    holds: &mut u64,
    size: &mut usize,
) -> u64
    ensures set_after { got result (holds.new ∷ size.new ∷ []) set.new ≡ lent_judged (verdict_of table.now shares masks notion order set.old) (holds.old ∷ size.old ∷ []) }
    ensures kept { Kept result (holds.new ∷ size.new ∷ []) (holds.old ∷ size.old ∷ []) set.new set.old }
    ensures verdict_shows { VerdictShows result holds.new size.new table.now shares masks notion order set.old set.new }
    ensures verdict_says { VerdictSays result holds.new size.new table.now shares masks notion order set.new }
{
    judged::<Walk>(table, shares, masks, notion, order, set, holds, size)
}

// The verdict by the directed search.
pub fn directed_verdict(
    table: &[u8],
    shares: usize,
    masks: usize,
    notion: usize,
    order: usize,
    set: &mut [u16],
    holds: &mut u64,
    size: &mut usize,
) -> u64
    ensures set_after { got result (holds.new ∷ size.new ∷ []) set.new ≡ lent_judged (verdict_of table.now shares masks notion order set.old) (holds.old ∷ size.old ∷ []) }
    ensures kept { Kept result (holds.new ∷ size.new ∷ []) (holds.old ∷ size.old ∷ []) set.new set.old }
    ensures verdict_shows { VerdictShows result holds.new size.new table.now shares masks notion order set.old set.new }
    ensures verdict_says { VerdictSays result holds.new size.new table.now shares masks notion order set.new }
{
    judged::<Directed>(table, shares, masks, notion, order, set, holds, size)
}
