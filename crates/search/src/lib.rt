// The search behind verdict and range check: nested loops over size and rank, left by label with the breaking set. The first set of a size is worked
// out from its rank; from there on the walk keeps set and tally. These functions ask what the entries have tested.
#![tactic(auto)]

ghost use Rattle.std.specs.Prelude.{◌≤◌, length};
ghost use Rattle.limits.specs.Limits.{max_shares, max_masks, max_table_bytes, max_size};
ghost use Rattle.counts.specs.Counts.{binom, Counts};
ghost use Rattle.shares.specs.Ones.{Ones};
ghost use Rattle.records.specs.Layout.{wire_count};
ghost use Rattle.breaking.specs.Breaking.{is_breaking};
ghost use Rattle.search.specs.Search.{searched, FirstSet, FirstRank, FirstFound};

use breaking::sum_breaks;
use counts::count;
use limits::{COUNTS, RECORD_BYTES};
use running::{advance, start};
use runs::pass_over;
use shares::ones::WORDS;
use wires::Notion;

// A breaking set by its size and rank.
#[derive(Clone, Copy)]
pub struct Found {
    pub size: usize,
    pub rank: u64,
}

// The first breaking set in rising size and rank, at the start of `probes`: of the sizes from `low` to `high`, and of each size of the ranks from
// `from` up to, without, `to`.
pub fn first_breaking(
    table: &[u8],
    counts: &[u64; COUNTS],
    notion: Notion,
    low: usize,
    high: usize,
    from: u64,
    to: u64,
    probes: &mut [u16],
    ones: &[u8; WORDS],
) -> Option<Found>
    requires counts { Counts counts.now }
    requires table_len_bound { (length table.now ≤ max_table_bytes) × (high ≤ max_size) × (high ≤ length probes.old) × Ones ones.now }
    ensures { FirstFound (is_breaking notion table.now max_shares max_masks) (wire_count table.now) low high from to result probes.new }
{
    let wires = table.len() / RECORD_BYTES;
    // kept: the scope has the loops over size and rank left by label (docs/DECISIONS.md)
    let mut found = None;
    'search: for size in low..=high {
        let end = count(counts, wires, size).min(to);
        let mut tally = start(table, counts, notion, wires, size, from, probes);
        let mut rank = from;
        while rank < end {
            let stand = pass_over(table, notion, wires, size, rank, end, probes, tally, ones);
            if sum_breaks(ones, stand.tally.sum, stand.tally.paid) {
                found = Some(Found {
                    size,
                    rank: stand.rank,
                });
                break 'search;
            }
            rank = stand.rank + 1;
            if rank < end {
                tally = advance(table, notion, wires, size, probes, stand.tally);
            }
        }
    }
    found
}

// The size of the first breaking set of up to `order` wires, with the set at the start of `probes`.
pub fn first_set(table: &[u8], notion: Notion, order: usize, probes: &mut [u16]) -> Option<usize>
    requires { (length table.now ≤ max_table_bytes) × (order ≤ max_size) × (order ≤ length probes.old) }
    ensures { FirstSet (is_breaking notion table.now max_shares max_masks) (searched (wire_count table.now) order) result probes.new }
{
    // no size has as many sets as the largest number
    let counts = counts::table();
    let ones = shares::ones::table();
    let found = first_breaking(table, &counts, notion, 1, order, 0, u64::MAX, probes, &ones)?;
    Some(found.size)
}

// The first breaking rank of one size from `from` up to, without, `to`, with its set at the start of `probes`.
pub fn first_rank(
    table: &[u8],
    counts: &[u64; COUNTS],
    notion: Notion,
    size: usize,
    from: u64,
    to: u64,
    probes: &mut [u16],
) -> Option<u64>
    requires counts { Counts counts.now }
    requires table_len_bound { (length table.now ≤ max_table_bytes) × (size ≤ max_size) × (size ≤ length probes.old) × (from ≤ to) × (to ≤ binom (wire_count table.now) size) }
    ensures { FirstRank (is_breaking notion table.now max_shares max_masks) (wire_count table.now) size from to result probes.new }
{
    let ones = shares::ones::table();
    let found = first_breaking(table, counts, notion, size, size, from, to, probes, &ones)?;
    Some(found.rank)
}
