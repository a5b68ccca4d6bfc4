// The report of a range check, written so that a pool takes it (request No. 5).
// Every argument may be anything its type holds: what could stand in no report is refused, and a refusal alters no lent byte.
#![tactic(auto)]

ghost use Rattle.std.specs.Prelude.{◌≡◌, length};
ghost use Rattle.filed_reports.specs.Bytes.{report_bytes};
ghost use Rattle.pool_answers.specs.Answers.{filing_told, report_of, filed_as, filed_report};
ghost use Rattle.pool_answers.specs.Says.{FilingMeans};

use filed_reports::{CLEAN, REPORT_BYTES, Report, write_report};
use filed_tests::is_filed;
use limits::{MAX_SIZE, MAX_WIRES};
use pool_answers::Refusal;
use verdict_answers::{Checked, Refusal as Untested};

// Writes a report that a pool takes, of the largest table and at the largest order.
fn file(
    notion: usize,
    size: usize,
    from: u64,
    to: u64,
    found: u64,
    bytes: &mut [u8],
) -> Result<(), Refusal>
    requires { length bytes.old ≡ report_bytes }
    ensures { filing_told result bytes.new ≡ filed_as (report_of notion size from to found) bytes.old }
{
    // kept: (plainer) `Notion::try_from` would give a notion of which only whether there is one is asked
    if notion < 1 {
        return Err(Refusal::Misfiled);
    }
    if 2 < notion {
        return Err(Refusal::Misfiled);
    }
    let counts = counts::table();
    let report = Report {
        notion,
        size,
        filling: 0,
        from,
        to,
        found,
    };
    if !is_filed(report, &counts, MAX_WIRES, notion, MAX_SIZE) {
        return Err(Refusal::Misfiled);
    }
    write_report(report, bytes);
    Ok(())
}

// Writes the report of a range check of a size and its ranks from `from` up to, without, `to`, with what it answered.
pub fn filed_report(
    notion: usize,
    size: usize,
    from: u64,
    to: u64,
    answer: Result<Checked, Untested>,
    report: &mut [u8],
) -> Result<(), Refusal>
    ensures report_after { filing_told result report.new ≡ filed_report notion size from to answer report.old }
    ensures filing_means { FilingMeans result notion size from to answer report.old report.new }
{
    if report.len() != REPORT_BYTES {
        return Err(Refusal::Misfiled);
    }
    let Ok(told) = answer else {
        return Err(Refusal::Misfiled);
    };
    match told {
        Checked::Clean => file(notion, size, from, to, CLEAN, report),
        Checked::Found { size: wires, rank } => {
            if wires != size {
                return Err(Refusal::Misfiled);
            }
            // a rank of all ones bits, written as it is, would read as clean
            if rank < from {
                return Err(Refusal::Misfiled);
            }
            if to <= rank {
                return Err(Refusal::Misfiled);
            }
            file(notion, size, from, to, rank, report)
        }
    }
}
