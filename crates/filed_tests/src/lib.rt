// The tests that reports have to pass (25). These functions ask what the entries have tested.
#![tactic(auto)]

ghost use Rattle.std.specs.Prelude.{◌≡◌, not, ◌≤◌};
ghost use Rattle.limits.specs.Limits.{max_wires, max_size};
ghost use Rattle.counts.specs.Counts.{binom, Counts};
ghost use Rattle.filed_reports.specs.Filed.{misfiled, any_misfiled};

use counts::count;
use filed_reports::{CLEAN, REPORT_BYTES, Report, report_at};
use limits::COUNTS;

// Whether a report is of the notion, has a size from 1 to the order, no filling, bounds within the sets of that size, and its found rank between them.
pub fn is_filed(
    report: Report,
    counts: &[u64; COUNTS],
    wires: usize,
    notion: usize,
    order: usize,
) -> bool
    requires counts { Counts counts.now }
    requires wires_le_max_wires { (wires ≤ max_wires) × (order ≤ max_size) }
    ensures { result ≡ not (misfiled (binom wires) notion order report) }
{
    if report.notion != notion {
        return false;
    }
    if report.size < 1 {
        return false;
    }
    if order < report.size {
        return false;
    }
    if report.filling != 0 {
        return false;
    }
    if report.to < report.from {
        return false;
    }
    if count(counts, wires, report.size) < report.to {
        return false;
    }
    if report.found == CLEAN {
        return true;
    }
    if report.found < report.from {
        return false;
    }
    if report.to <= report.found {
        return false;
    }
    true
}

// Whether every report of a list is.
pub fn all_filed(
    reports: &[u8],
    counts: &[u64; COUNTS],
    wires: usize,
    notion: usize,
    order: usize,
) -> bool
    requires counts { Counts counts.now }
    requires wires_le_max_wires { (wires ≤ max_wires) × (order ≤ max_size) }
    ensures { result ≡ not (any_misfiled (binom wires) notion order reports.now) }
{
    for i in 0..reports.len() / REPORT_BYTES {
        if !is_filed(report_at(reports, i), counts, wires, notion, order) {
            return false;
        }
    }
    true
}
