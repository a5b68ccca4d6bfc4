// What reports have found: whether each found rank is that of a breaking set (26), and the first of them. These functions ask what the entries have
// tested.
#![tactic(auto)]

ghost use Rattle.std.specs.Prelude.{◌≡◌, false, not, ℕ, ◌≤◌, ◌<◌, length};
ghost use Rattle.limits.specs.Limits.{max_shares, max_masks, max_table_bytes, max_size};
ghost use Rattle.counts.specs.Counts.{binom, Counts};
ghost use Rattle.revolving.specs.Order.{set_at};
ghost use Rattle.records.specs.Layout.{wire_count};
ghost use Rattle.breaking.specs.Breaking.{is_breaking};
ghost use Rattle.filed_reports.specs.Filed.{any_misfiled, reported};
ghost use Rattle.filed_reports.specs.Places.{PlaceIs};
ghost use Rattle.finds.specs.Finds.{any_false, Findable, comes_first};

use breaking::set_breaks;
use filed_reports::{CLEAN, Place, REPORT_BYTES, Report, report_at};
use limits::{COUNTS, MAX_SIZE, RECORD_BYTES};
use revolving::unrank;
use wires::Notion;

// Whether the set at a rank of a size breaks the notion.
fn breaks_at(table: &[u8], counts: &[u64; COUNTS], notion: Notion, size: usize, rank: u64) -> bool
    requires counts { Counts counts.now }
    requires table_len_bound { (length table.now ≤ max_table_bytes) × (size ≤ max_size) × (rank < binom (wire_count table.now) size) }
    ensures { result ≡ is_breaking notion table.now max_shares max_masks (set_at (wire_count table.now) size rank) }
{
    let mut probes = [0u16; MAX_SIZE];
    unrank(counts, table.len() / RECORD_BYTES, size, rank, &mut probes);
    set_breaks(table, notion, &probes[0..size])
}

// Whether every found rank of a list of reports is that of a breaking set.
pub fn all_break(table: &[u8], counts: &[u64; COUNTS], notion: Notion, reports: &[u8]) -> bool
    requires counts { Counts counts.now }
    requires table_len_bound { (length table.now ≤ max_table_bytes) × Findable (wire_count table.now) reports.now }
    ensures { result ≡ not (any_false (is_breaking notion table.now max_shares max_masks) (wire_count table.now) reports.now) }
{
    for next in 0..reports.len() / REPORT_BYTES {
        let report = report_at(reports, next);
        if report.found != CLEAN {
            if !breaks_at(table, counts, notion, report.size, report.found) {
                return false;
            }
        }
    }
    true
}

// Whether a report has found a rank that comes before the first so far.
#[tactic(auto, unfolding(crate::specs::Finds::comes_first))]
fn comes_first(report: Report, least: Option<Place>) -> bool
    ensures { result ≡ comes_first report least }
{
    if report.found == CLEAN {
        return false;
    }
    let found = Place {
        size: report.size,
        rank: report.found,
    };
    match least {
        None => true,
        Some(first) => found < first,
    }
}

// The smallest size, and then the lowest rank, that a report has found.
pub fn least_found(reports: &[u8]) -> Option<Place>
    ensures { (all : ℕ → ℕ) (notion order : ℕ) → any_misfiled all notion order reports.now ≡ false → PlaceIs all (reported reports.now) order result }
{
    let mut least = None;
    for i in 0..reports.len() / REPORT_BYTES {
        let report = report_at(reports, i);
        if comes_first(report, least) {
            least = Some(Place {
                size: report.size,
                rank: report.found,
            });
        }
    }
    least
}
