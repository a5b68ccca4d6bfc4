// Verdicts: whether a gadget's table holds NI or SNI at an order, with the first breaking set where it does not (scope, "Numbering and dividing" and
// "What each operation turns down"). The range check and the set dependence are passed on from `ranges` and `dependence`, the types of the
// answers from `verdict_answers`.
// Every argument may be anything its type holds: what is out of range is refused, in the scope's order, and a refusal alters no lent number.
#![tactic(auto)]

ghost use Rattle.std.specs.Prelude.{◌≡◌};
ghost use Rattle.verdict_answers.specs.Answers.{verdict_told, verdict_of};
ghost use Rattle.verdict_answers.specs.First.{VerdictFinds};
ghost use Rattle.verdict_answers.specs.Guarantee.{Guarantee};

pub use dependence::set_dependence;
use judging::{Walk, judge};
pub use ranges::range_check;
pub use verdict_answers::{Checked, DependsOn, Judged, Refusal};

// Whether the table holds the notion (1, NI; 2, SNI) at an order, by nested loops over size and rank. Where it does not, the first breaking set in rising
// size and rank is written, rising, at the start of `set`.
pub fn verdict(
    table: &[u8],
    shares: usize,
    masks: usize,
    notion: usize,
    order: usize,
    set: &mut [u16],
) -> Result<Judged, Refusal>
    ensures set_after { verdict_told result set.new ≡ verdict_of table.now shares masks notion order set.old }
    ensures verdict_finds { VerdictFinds result table.now shares masks notion order set.old set.new }
    ensures guarantee { Guarantee result table.now shares masks notion order set.new }
{
    judge::<Walk>(table, shares, masks, notion, order, set)
}
