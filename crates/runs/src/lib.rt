// The inner loop of the search: sets that do not break are passed over while the lowest wire alone moves. These functions ask what the entries have
// tested.
#![tactic(auto)]

ghost use Rattle.std.specs.Prelude.{◌≡◌, false, ℕ, ◌≤◌, ◌<◌, length};
ghost use Rattle.limits.specs.Limits.{max_shares, max_masks, max_wires, max_size};
ghost use Rattle.counts.specs.Counts.{binom};
ghost use Rattle.revolving.specs.Order.{set_at};
ghost use Rattle.shares.specs.Ones.{Ones};
ghost use Rattle.records.specs.Layout.{wire_count};
ghost use Rattle.breaking.specs.Breaking.{is_breaking};
ghost use Rattle.running.specs.Kept.{Stands};

use breaking::sum_breaks;
use running::{Tally, slide};
use shares::ones::WORDS;
use wires::Notion;

// Where a walk stands.
#[derive(Clone, Copy)]
pub struct Stand {
    pub rank: u64,
    pub tally: Tally,
}

// Passes over sets that do not break, as long as the lowest wire alone moves, and no further than to the last rank. This is where a search spends
// its time: what changes from set to set is at hand.
pub fn pass_over(
    table: &[u8],
    notion: Notion,
    wires: usize,
    size: usize,
    from: u64,
    to: u64,
    probes: &mut [u16],
    first: Tally,
    ones: &[u8; WORDS],
) -> Stand
    requires wires_value { (wires ≡ wire_count table.now) × (wires ≤ max_wires) × (size ≤ max_size) × (size ≤ length probes.old) × (from < to) × (to ≤ binom wires size) × Ones ones.now }
    requires stands { Stands notion table.now wires size from probes.old first }
    ensures from_le_rank { (from ≤ result.rank) × (result.rank < to) }
    ensures stands_2 { Stands notion table.now wires size result.rank probes.new result.tally }
    ensures by_index { (i : ℕ) → from ≤ i → i < result.rank → is_breaking notion table.now max_shares max_masks (set_at wires size i) ≡ false }
{
    let mut rank = from;
    let mut tally = first;
    if size == 0 {
        return Stand { rank, tally };
    }
    let mut lowest = probes[0] as usize;
    let steps = walk::steps_of_lowest(wires, &probes[0..size]) as u64;
    let last = from + steps.min(to - 1 - from);
    // kept: the rank is given where the walk stops and where it ends; a `for` would say each end by itself
    while rank < last {
        if sum_breaks(ones, tally.sum, tally.paid) {
            return Stand { rank, tally };
        }
        let slid = slide(table, notion, wires, size, probes, lowest, tally);
        lowest = slid.lowest;
        tally = slid.tally;
        rank += 1;
    }
    Stand { rank, tally }
}
