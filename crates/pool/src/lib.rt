// The pool of reports from many machines: broken where one has found a set, uncovered where a rank is in no report, else holds (request No. 5). The entry
// that writes a report is passed on from `filing`, the types of the answers from `pool_answers`.
// Every argument may be anything its type holds: what is out of range is refused, in the order of the requests. Nothing is lent to be written.
#![tactic(auto)]

ghost use Rattle.std.specs.Prelude.{◌≡◌};
ghost use Rattle.pool_answers.specs.Answers.{pool_told, pool_of};
ghost use Rattle.pool_answers.specs.Says.{PoolSays};
ghost use Rattle.pool_answers.specs.Agrees.{PoolAgrees};

use coverage::first_uncovered;
use filed_reports::REPORT_BYTES;
use filed_tests::all_filed;
pub use filing::filed_report;
use finds::{all_break, least_found};
use limits::RECORD_BYTES;
use opening::opening;
pub use pool_answers::{Outcome, Refusal};
use verdict_answers::Refusal as Untested;

// What the reports come to, of a table, a notion and an order.
pub fn pool(
    table: &[u8],
    shares: usize,
    masks: usize,
    notion: usize,
    order: usize,
    reports: &[u8],
) -> Result<Outcome, Refusal>
    ensures result_value { pool_told result ≡ pool_of table.now shares masks notion order reports.now }
    ensures pool_says { PoolSays result table.now shares masks notion order reports.now }
    ensures pool_agrees { PoolAgrees result table.now shares masks notion order reports.now }
{
    let kind = opening(table, shares, masks, notion)?;
    if order < 1 {
        return Err(Refusal::Tests(Untested::OrderOutOfRange));
    }
    if shares <= order {
        return Err(Refusal::Tests(Untested::OrderOutOfRange));
    }
    if reports.len() % REPORT_BYTES != 0 {
        return Err(Refusal::Misfiled);
    }
    let counts = counts::table();
    let wires = table.len() / RECORD_BYTES;
    if !all_filed(reports, &counts, wires, notion, order) {
        return Err(Refusal::Misfiled);
    }
    if !all_break(table, &counts, kind, reports) {
        return Err(Refusal::FalseFind);
    }
    if let Some(found) = least_found(reports) {
        return Ok(Outcome::Broken {
            size: found.size,
            rank: found.rank,
        });
    }
    if let Some(missing) = first_uncovered(reports, &counts, wires, order) {
        return Ok(Outcome::Uncovered {
            size: missing.size,
            rank: missing.rank,
        });
    }
    Ok(Outcome::Holds)
}
