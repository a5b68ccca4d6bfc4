// The order behind the entries: the set at a rank, the rank of a set. These functions ask what the entries have tested,
// and take the table of counts from their caller, who holds it once for many calls.
#![tactic(auto)]

ghost use Rattle.std.specs.Prelude.{◌≡◌, true, ◌&&◌, ◌++◌, ◌+◌, ◌≤◌, ◌<◌, length, drop};
ghost use Rattle.limits.specs.Limits.{max_wires, max_size};
ghost use Rattle.counts.specs.Counts.{binom, Counts};
ghost use Rattle.revolving.specs.Order.{set_at, rank_of, rising, below};

use counts::count;
use limits::COUNTS;

// The highest wire of the set at rank r: the sets of k out of as many wires stand before r, those out of one more go past it.
fn top_wire(table: &[u64; COUNTS], n: usize, k: usize, r: u64) -> usize
    requires counts { Counts table.now }
    requires n_le_max_wires { (n ≤ max_wires) × (k ≤ max_size) × (0 < k) × (r < binom n k) }
    ensures { (result < n) × (binom result k ≤ r) × (r < binom (result + 1) k) }
{
    let mut low = 0;
    let mut high = n;
    while 1 < high - low {
        let middle = low + (high - low) / 2;
        if count(table, middle, k) <= r {
            low = middle;
        } else {
            high = middle;
        }
    }
    low
}

// Writes the set at a rank, rising, at the start of `set`, and nothing past it. The highest wire comes first: below it
// stand the sets of one wire less, in reverse.
pub fn unrank(table: &[u64; COUNTS], wires: usize, size: usize, rank: u64, set: &mut [u16])
    requires counts { Counts table.now }
    requires wires_le_max_wires { (wires ≤ max_wires) × (size ≤ max_size) × (size ≤ length set.old) × (rank < binom wires size) }
    ensures { set.new ≡ set_at wires size rank ++ drop size set.old }
{
    let mut n = wires;
    let mut r = rank;
    for place in (0..size).rev() {
        let wire = top_wire(table, n, place + 1, r);
        let sets = count(table, wire + 1, place + 1);
        r = sets - 1 - r;
        set[place] = wire as u16;
        n = wire;
    }
}

// Whether the wires are strictly rising and of a table of n.
pub fn is_rising(n: usize, set: &[u16]) -> bool
    ensures { result ≡ (rising set.now && below n set.now) }
{
    let mut next = 0;
    for wire in set {
        let wire = usize::from(*wire);
        if wire < next {
            return false;
        }
        if n <= wire {
            return false;
        }
        next = wire + 1;
    }
    true
}

// The rank of a set of n wires, worked out from its lowest wire up.
pub fn rank(table: &[u64; COUNTS], n: usize, set: &[u16]) -> u64
    requires counts { Counts table.now }
    requires n_le_max_wires { (n ≤ max_wires) × (length set.now ≤ max_size) × ((rising set.now && below n set.now) ≡ true) }
    ensures { result ≡ rank_of n set.now }
{
    let mut r = 0;
    for (i, wire) in set.iter().enumerate() {
        let through = count(table, usize::from(*wire) + 1, i + 1);
        r = through - 1 - r;
    }
    r
}
