// The directed verdict: the verdict's own answer without a visit to every set. Refusals, answers and promises are those of `verdict::verdict`, word for word.
// Every argument may be anything its type holds: what is out of range is refused, in the scope's order, and a refusal alters no lent number.
#![tactic(auto)]

ghost use Rattle.std.specs.Prelude.{◌≡◌};
ghost use Rattle.verdict_answers.specs.Answers.{verdict_told, verdict_of};
ghost use Rattle.verdict_answers.specs.First.{VerdictFinds};
ghost use Rattle.verdict_answers.specs.Guarantee.{Guarantee};

use judging::{Directed, judge};
pub use verdict_answers::{Judged, Refusal};

// Whether the table holds the notion (1, NI; 2, SNI) at an order, by a search that goes from wire to wire along the masks. Where it does not, the first
// breaking set in rising size and rank is written, rising, at the start of `set`.
pub fn directed_verdict(
    table: &[u8],
    shares: usize,
    masks: usize,
    notion: usize,
    order: usize,
    set: &mut [u16],
) -> Result<Judged, Refusal>
    ensures set_after { verdict_told result set.new ≡ verdict_of table.now shares masks notion order set.old }
    ensures verdict_finds { VerdictFinds result table.now shares masks notion order set.old set.new }
    ensures guarantee { Guarantee result table.now shares masks notion order set.new }
{
    judge::<Directed>(table, shares, masks, notion, order, set)
}
