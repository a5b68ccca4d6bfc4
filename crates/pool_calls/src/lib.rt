// The pool of reports, and the writing of one, for callers in C.
#![tactic(auto)]

ghost use Rattle.std.specs.Prelude.{◌≡◌, [], ◌∷◌};
ghost use Rattle.pool_answers.specs.Answers.{pool_of};
ghost use Rattle.call_answers.specs.Calls.{got, answered, lent_answered};
ghost use Rattle.call_answers.specs.Meaning.{Kept};
ghost use Rattle.pool_calls.specs.Calls.{checked_as, filed_call, PoolTells, FilingSays};

use pool::{Outcome, Refusal};
use verdict_answers::Checked;

// What the reports of many machines come to.
pub fn pool(
    table: &[u8],
    shares: usize,
    masks: usize,
    notion: usize,
    order: usize,
    reports: &[u8],
    answer: &mut u64,
    size: &mut usize,
    rank: &mut u64,
) -> u64
    ensures rank_after { got result (answer.new ∷ size.new ∷ rank.new ∷ []) [] ≡ answered (pool_of table.now shares masks notion order reports.now) (answer.old ∷ size.old ∷ rank.old ∷ []) [] }
    ensures kept { Kept result (answer.new ∷ size.new ∷ rank.new ∷ []) (answer.old ∷ size.old ∷ rank.old ∷ []) [] [] }
    ensures pool_tells { PoolTells result answer.new size.new rank.new table.now shares masks notion order reports.now }
{
    let outcome = match pool::pool(table, shares, masks, notion, order, reports) {
        Ok(outcome) => outcome,
        Err(why) => return why.number(),
    };
    // kept: (C) the numbers 1, 2 and 3 are what C reads (`PoolTells`)
    match outcome {
        Outcome::Holds => {
            *answer = 1;
            0
        }
        Outcome::Broken {
            size: wires,
            rank: place,
        } => {
            *answer = 2;
            *size = wires;
            *rank = place;
            0
        }
        Outcome::Uncovered {
            size: wires,
            rank: place,
        } => {
            *answer = 3;
            *size = wires;
            *rank = place;
            0
        }
    }
}

// What a range check told by `clean` and `rank`.
// kept: (C) the flag with a rank beside it is what C hands over (`checked_as`)
fn checked(size: usize, clean: u64, rank: u64) -> Checked
    ensures { result ≡ checked_as size clean rank }
{
    if clean == 1 {
        return Checked::Clean;
    }
    Checked::Found { size, rank }
}

// Writes the report of a range check.
pub fn filed_report(
    notion: usize,
    size: usize,
    from: u64,
    to: u64,
    clean: u64,
    rank: u64,
    report: &mut [u8],
) -> u64
    ensures report_after { got result [] report.new ≡ lent_answered (filed_call notion size from to clean rank report.old) [] }
    ensures kept { Kept result [] [] report.new report.old }
    ensures filing_says { FilingSays result notion size from to clean rank report.old report.new }
{
    if 1 < clean {
        return Refusal::Misfiled.number();
    }
    match pool::filed_report(
        notion,
        size,
        from,
        to,
        Ok(checked(size, clean, rank)),
        report,
    ) {
        Ok(()) => 0,
        Err(why) => why.number(),
    }
}
