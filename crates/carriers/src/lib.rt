// Which wires carry which mask: what a directed search looks up at each node. These functions ask what the entries have tested.
#![tactic(auto)]

ghost use Rattle.std.specs.Prelude.{◌≡◌, true, cond, suc, ◌≤◌, ◌<◌, replicate};
ghost use Rattle.limits.specs.Limits.{max_masks, max_wires};
ghost use Rattle.wires.specs.Wires.{masked};
ghost use Rattle.records.specs.Layout.{wire_count, terms_of};
ghost use Rattle.carriers.specs.Carriers.{carries, highest_at, carrier_count, Carriers};

use limits::{MAX_MASKS, MAX_WIRES, RECORD_BYTES};
use records::sums::{Sum, wire_record};

// A row of masks for each number of wires, 0 among them.
pub const CARRIERS: usize = MAX_MASKS * (MAX_WIRES + 1);

// Whether a mask is one of a sum's.
pub fn has_mask(sum: Sum, mask: usize) -> bool
    requires { mask < max_masks }
    ensures { result ≡ (terms_of sum).mask mask }
{
    (sum.masks >> mask) % 2 == 1
}

// The lowest mask of a sum.
pub fn lowest_mask(sum: Sum) -> usize
    requires { masked max_masks (terms_of sum) ≡ true }
    ensures { (result < max_masks) × ((terms_of sum).mask result ≡ true) }
{
    sum.masks.trailing_zeros() as usize
}

// The highest carrier of a mask with one wire more: that wire where it carries the mask, else what it was before.
fn highest_with(table: &[u8], wire: usize, mask: usize, before: u16) -> u16
    requires { (wire < wire_count table.now) × (wire < max_wires) × (mask < max_masks) }
    ensures { result ≡ cond (carries table.now mask wire) (suc wire) before }
{
    if has_mask(wire_record(table, wire), mask) {
        return (wire + 1) as u16;
    }
    before
}

// For each number of wires and each mask the highest of so many wires that carries the mask, counted from 1, or 0.
pub fn carriers(table: &[u8]) -> [u16; CARRIERS]
    requires { wire_count table.now ≤ max_wires }
    ensures { Carriers table.now result }
{
    let mut highest = [0u16; CARRIERS];
    fill(table, &mut highest);
    highest
}

// The same, written where it is to stand: an array that is returned stands on the stack twice.
pub fn fill(table: &[u8], highest: &mut [u16; CARRIERS])
    requires wires { wire_count table.now ≤ max_wires }
    requires empty { highest.old ≡ replicate carrier_count 0 }
    ensures { Carriers table.now highest.new }
{
    let wires = table.len() / RECORD_BYTES;
    for place in 0..MAX_MASKS * wires {
        highest[place + MAX_MASKS] = highest_with(
            table,
            place / MAX_MASKS,
            place % MAX_MASKS,
            highest[place],
        );
    }
}

// The highest of the wires below a limit that carries a mask, counted from 1, or 0.
// kept: counted from 1 it is the next limit, and at 0 no wire is left: no case of its own is needed for none
pub fn highest_below(carriers: &[u16; CARRIERS], mask: usize, limit: usize) -> usize
    requires { (mask < max_masks) × (limit ≤ max_wires) }
    ensures { result ≡ highest_at carriers.now mask limit }
{
    usize::from(carriers[MAX_MASKS * limit + mask])
}
