// Which ranks the reports of a list cover: from rank 0 of a size on, and the first size and rank that no report covers. These functions ask what the
// entries have tested.
#![tactic(auto)]

ghost use Rattle.std.specs.Prelude.{◌≡◌, false, cond, not, ◌-◌, ◌≤◌, ◌<◌};
ghost use Rattle.limits.specs.Limits.{max_wires, max_size};
ghost use Rattle.counts.specs.Counts.{binom, Counts};
ghost use Rattle.filed_reports.specs.Filed.{covered};
ghost use Rattle.filed_reports.specs.Places.{PlaceIs};
ghost use Rattle.extents.specs.Extents.{Onward};
ghost use Rattle.coverage.specs.Coverage.{Reach};

use counts::count;
use extents::{NONE_AHEAD, WINDOW, extended, note, through};
use filed_reports::{Place, REPORT_BYTES};
use limits::COUNTS;

// Which report a pass looks at next: from the first on, or from the last on.
fn next_report(count: usize, turn: usize, backward: bool) -> usize
    requires { turn < count }
    ensures { (result < count) × (result ≡ cond backward (count - 1 - turn) turn) }
{
    if backward {
        return count - 1 - turn;
    }
    turn
}

// One pass over the list: how far the ranks are covered with all reports tried in turn, and then those that started past what was covered.
fn pass_over(reports: &[u8], size: usize, from: u64, backward: bool) -> u64
    ensures onward { Onward reports.now size from result }
    ensures from_value { result ≡ from → covered reports.now size from ≡ false }
{
    let count = reports.len() / REPORT_BYTES;
    let mut ahead = [NONE_AHEAD; WINDOW];
    let mut reach = from;
    for turn in 0..count {
        let i = next_report(count, turn, backward);
        note(reports, i, size, reach, &mut ahead);
        reach = extended(reports, i, size, reach);
    }
    through(reports, size, reach, &ahead)
}

// The first rank of a size that no report covers; not below `all` where there is none. Passes go on until one adds nothing, forth and back in turn, so
// that a list in either order takes one or two.
pub fn covered_up_to(reports: &[u8], size: usize, all: u64) -> u64
    ensures { Reach reports.now size all result }
{
    let mut reach = 0;
    let mut backward = false;
    while reach < all {
        let next = pass_over(reports, size, reach, backward);
        if next == reach {
            return reach;
        }
        reach = next;
        backward = !backward;
    }
    reach
}

// The first size, from 1 to the order, and rank that no report covers, if there is one.
pub fn first_uncovered(
    reports: &[u8],
    counts: &[u64; COUNTS],
    wires: usize,
    order: usize,
) -> Option<Place>
    requires counts { Counts counts.now }
    requires wires_le_max_wires { (wires ≤ max_wires) × (order ≤ max_size) }
    ensures { PlaceIs (binom wires) (λ size rank. not (covered reports.now size rank)) order result }
{
    for size in 1..=order {
        let all = count(counts, wires, size);
        let rank = covered_up_to(reports, size, all);
        if rank < all {
            return Some(Place { size, rank });
        }
    }
    None
}
