// The mask of a sum that fewest wires carry. It decides how quick a directed search is, not what it finds: all that is promised of the mask that is chosen
// is that it is one of the sum's.
#![tactic(auto)]

ghost use Rattle.std.specs.Prelude.{◌≡◌, true, ◌≤◌, ◌<◌};
ghost use Rattle.limits.specs.Limits.{max_masks, max_wires};
ghost use Rattle.wires.specs.Wires.{masked};
ghost use Rattle.records.specs.Layout.{terms_of};

use carriers::{CARRIERS, has_mask, highest_below, lowest_mask};
use limits::{MAX_MASKS, MAX_WIRES};
use records::sums::Sum;
use std::array;

// Above the number of wires: the weight of a mask that is not to be chosen.
const HEAVIEST: usize = MAX_WIRES + 1;

// How many wires carry a mask; the heaviest weight where none does, since such a mask is in no sum.
fn weight(carriers: &[u16; CARRIERS], wires: usize, mask: usize) -> usize
    requires { (mask < max_masks) × (wires ≤ max_wires) }
{
    // the wire right below a limit carries the mask where it is the highest below it
    let mut count = 0;
    for limit in 1..=wires {
        count += usize::from(highest_below(carriers, mask, limit) == limit);
    }
    if count == 0 { HEAVIEST } else { count }
}

// The lightest of all masks, the first of those alike.
fn lightest(weights: &[usize; MAX_MASKS]) -> usize
    ensures { result < max_masks }
{
    let mut lightest = 0;
    for (mask, weight) in weights.iter().enumerate() {
        if *weight < weights[lightest] {
            lightest = mask;
        }
    }
    lightest
}

// The masks by how many wires carry them, fewest first.
pub fn rarest_first(carriers: &[u16; CARRIERS], wires: usize) -> [usize; MAX_MASKS]
    requires { wires ≤ max_wires }
{
    let mut weights = array::from_fn(|mask| weight(carriers, wires, mask));
    let mut order = [0usize; MAX_MASKS];
    for place in order.iter_mut() {
        let mask = lightest(&weights);
        *place = mask;
        weights[mask] = HEAVIEST;
    }
    order
}

// The mask of a sum that comes first in an order. An order that has none of them, which `rarest_first` never makes, is no reason to stop: any mask is right.
pub fn rarest(order: &[usize; MAX_MASKS], sum: Sum) -> usize
    requires { masked max_masks (terms_of sum) ≡ true }
    ensures { (result < max_masks) × ((terms_of sum).mask result ≡ true) }
{
    for place in order {
        let mask = *place % MAX_MASKS;
        if has_mask(sum, mask) {
            return mask;
        }
    }
    lowest_mask(sum)
}
