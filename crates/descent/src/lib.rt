// The descent of a directed search (docs/DECISIONS.md, "The directed verdict"): from some wires to all breaking sets of a size that have them. It goes on only
// with wires that carry one chosen mask of the sum so far. These functions ask what the entries have tested.
#![tactic(auto)]

ghost use Rattle.std.specs.Prelude.{◌≡◌, ◌≤◌, length};
ghost use Rattle.limits.specs.Limits.{max_shares, max_masks, max_table_bytes, max_size};
ghost use Rattle.counts.specs.Counts.{Counts};
ghost use Rattle.shares.specs.Ones.{Ones};
ghost use Rattle.records.specs.Layout.{wire_count};
ghost use Rattle.breaking.specs.Breaking.{is_breaking};
ghost use Rattle.parts.specs.Parts.{NoneBelow};
ghost use Rattle.carriers.specs.Carriers.{Carriers};
ghost use Rattle.descent.specs.Nodes.{Node, Looked};

use breaking::{is_masked, pay};
use carriers::{CARRIERS, highest_below};
use choices::{CHOSEN, CLOSED, OPEN, leaves_masks, settle};
use limits::{COUNTS, MAX_MASKS, MAX_WIRES};
use rarity::rarest;
use records::sums::{Sum, with_wire};
use shares::ones::WORDS;
use wires::Notion;

// The least rank of a breaking set that has the chosen wires and open ones besides, `left` more in all, and of what was found before.
pub fn descend(
    table: &[u8],
    counts: &[u64; COUNTS],
    ones: &[u8; WORDS],
    carriers: &[u16; CARRIERS],
    rarity: &[usize; MAX_MASKS],
    notion: Notion,
    size: usize,
    top: usize,
    marks: [u8; MAX_WIRES],
    sum: Sum,
    paid: usize,
    left: usize,
    found: u64,
) -> u64
    requires counts { Counts counts.now × Ones ones.now × Carriers table.now carriers.now }
    requires table_len_bound { (length table.now ≤ max_table_bytes) × (size ≤ max_size) × NoneBelow (is_breaking notion table.now max_shares max_masks) (wire_count table.now) size }
    requires node { Node notion table.now size top marks sum paid left }
    ensures { Looked (is_breaking notion table.now max_shares max_masks) (wire_count table.now) size top marks found result }
{
    if left == 0 {
        return settle(table, counts, ones, size, &marks, sum, paid, found);
    }
    // a part of a least breaking set has a mask
    if !is_masked(sum) {
        return found;
    }
    let mask = rarest(rarity, sum);
    let mut least = found;
    let mut now = marks;
    let mut limit = highest_below(carriers, mask, top);
    while 0 < limit {
        let wire = limit - 1;
        limit = highest_below(carriers, mask, wire);
        if now[wire] == OPEN {
            let more = with_wire(sum, table, wire);
            if leaves_masks(more, left) {
                now[wire] = CLOSED;
            } else {
                now[wire] = CHOSEN;
                least = descend(
                    table,
                    counts,
                    ones,
                    carriers,
                    rarity,
                    notion,
                    size,
                    top,
                    now,
                    more,
                    paid + pay(table, notion, wire),
                    left - 1,
                    least,
                );
                // all sets with this wire are looked at
                now[wire] = CLOSED;
            }
        }
    }
    least
}
