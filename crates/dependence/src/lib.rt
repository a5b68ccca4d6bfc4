// Set dependence: of any set of wires on how many shares of each operand it depends, so that a designer sees which operand leaks.
// Every argument may be anything its type holds: what is out of range is refused, in the scope's order.
#![tactic(auto)]

ghost use Rattle.std.specs.Prelude.{◌≡◌};
ghost use Rattle.verdict_answers.specs.Answers.{dependence_told, set_dependence};
ghost use Rattle.verdict_answers.specs.Dependence.{DependenceMeans};

use breaking::{is_masked, payers};
use limits::{MAX_SIZE, RECORD_BYTES};
use opening::opening;
use records::sums::sum_of_set;
use revolving::is_rising;
use shares::dependence;
use verdict_answers::{DependsOn, Refusal};

// On how much a set of wires depends. An operand leaks by a set without masks where its count is above what the notion allows.
pub fn set_dependence(
    table: &[u8],
    shares: usize,
    masks: usize,
    notion: usize,
    set: &[u16],
) -> Result<DependsOn, Refusal>
    ensures result_value { dependence_told result ≡ set_dependence table.now shares masks notion set.now }
    ensures dependence_means { DependenceMeans result table.now shares masks notion set.now }
{
    let kind = opening(table, shares, masks, notion)?;
    if MAX_SIZE < set.len() {
        return Err(Refusal::SizeTooLarge);
    }
    if !is_rising(table.len() / RECORD_BYTES, set) {
        return Err(Refusal::NotASet);
    }
    let sum = sum_of_set(table, set);
    let on = dependence(sum);
    Ok(DependsOn {
        of_a: on.of_a,
        of_b: on.of_b,
        allowed: payers(table, kind, set),
        masked: is_masked(sum),
    })
}
