// The directed search (docs/DECISIONS.md, "The directed verdict"): the first breaking set in rising size and rank without a visit to every set. Sizes rise, and of
// each size the highest wire; below it the descent goes from mask to mask. These functions ask what the entries have tested.
#![tactic(auto)]

ghost use Rattle.std.specs.Prelude.{◌≤◌, ◌<◌, length};
ghost use Rattle.limits.specs.Limits.{max_shares, max_masks, max_table_bytes, max_size};
ghost use Rattle.counts.specs.Counts.{Counts};
ghost use Rattle.shares.specs.Ones.{Ones};
ghost use Rattle.records.specs.Layout.{wire_count};
ghost use Rattle.breaking.specs.Breaking.{is_breaking};
ghost use Rattle.parts.specs.Parts.{NoneBelow};
ghost use Rattle.carriers.specs.Carriers.{Carriers};
ghost use Rattle.search.specs.Search.{searched, FirstSet};
ghost use Rattle.directed_search.specs.Least.{LeastRank};

use breaking::pay;
use carriers::{CARRIERS, fill};
use choices::{CHOSEN, CLOSED, OPEN};
use counts::count;
use descent::descend;
use limits::{COUNTS, MAX_MASKS, MAX_WIRES, RECORD_BYTES};
use rarity::rarest_first;
use records::sums::wire_record;
use revolving::unrank;
use shares::ones::WORDS;
use wires::Notion;

// The least rank of a breaking set of a size, where no smaller set breaks.
fn least_rank(
    table: &[u8],
    counts: &[u64; COUNTS],
    ones: &[u8; WORDS],
    carriers: &[u16; CARRIERS],
    rarity: &[usize; MAX_MASKS],
    notion: Notion,
    size: usize,
) -> Option<u64>
    requires counts { Counts counts.now × Ones ones.now × Carriers table.now carriers.now }
    requires table_len_bound { (length table.now ≤ max_table_bytes) × (0 < size) × (size ≤ max_size) × NoneBelow (is_breaking notion table.now max_shares max_masks) (wire_count table.now) size }
    ensures { LeastRank (is_breaking notion table.now max_shares max_masks) (wire_count table.now) size result }
{
    let wires = table.len() / RECORD_BYTES;
    // kept: the number of sets is above every rank, so that the least rank so far has no case of its own for none
    let none = count(counts, wires, size);
    let mut marks = [CLOSED; MAX_WIRES];
    for top in 0..wires {
        marks[top] = CHOSEN;
        let least = descend(
            table,
            counts,
            ones,
            carriers,
            rarity,
            notion,
            size,
            top,
            marks,
            wire_record(table, top),
            pay(table, notion, top),
            size - 1,
            none,
        );
        // a set with a higher wire has a higher rank
        if least < none {
            return Some(least);
        }
        marks[top] = OPEN;
    }
    None
}

// The size of the first breaking set of up to `order` wires, with the set at the start of `probes`.
pub fn first_set(table: &[u8], notion: Notion, order: usize, probes: &mut [u16]) -> Option<usize>
    requires { (length table.now ≤ max_table_bytes) × (order ≤ max_size) × (order ≤ length probes.old) }
    ensures { FirstSet (is_breaking notion table.now max_shares max_masks) (searched (wire_count table.now) order) result probes.new }
{
    let wires = table.len() / RECORD_BYTES;
    let counts = counts::table();
    let ones = shares::ones::table();
    let mut carriers = [0u16; CARRIERS];
    fill(table, &mut carriers);
    let rarity = rarest_first(&carriers, wires);
    for size in 1..=order {
        if let Some(rank) = least_rank(table, &counts, &ones, &carriers, &rarity, notion, size) {
            unrank(&counts, wires, size, rank, probes);
            return Some(size);
        }
    }
    None
}
