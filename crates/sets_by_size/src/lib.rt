// The numbers of sets of each size up to an order, as a check of a text is told to take them, and all together (request No. 3).
#![tactic(auto)]

ghost use Rattle.std.specs.Prelude.{◌≡◌, ◌≤◌, ◌+◌, length, drop, ◌++◌};
ghost use Rattle.limits.specs.Limits.{max_order, max_wires};
ghost use Rattle.sets_by_size.specs.Counted.{counted, capped, total_of};

use limits::MAX_ORDER;

// How many sets there are of each size from 1 to the order.
pub fn set_counts(wires: usize, order: usize) -> [u64; MAX_ORDER]
    requires { (wires ≤ max_wires) × (order ≤ max_order) }
    ensures { result ≡ counted wires order }
{
    let table = counts::table();
    let mut sets = [0u64; MAX_ORDER];
    for (i, place) in sets[..order].iter_mut().enumerate() {
        *place = counts::count(&table, wires, i + 1);
    }
    sets
}

// Writes numbers of sets to the start of a buffer.
pub fn write_sets(sets: &[u64], buffer: &mut [u64])
    requires { length sets.now ≤ length buffer.old }
    ensures { buffer.new ≡ sets.now ++ drop (length sets.now) buffer.old }
{
    buffer[..sets.len()].copy_from_slice(sets);
}

// All sets together, or the largest number of 64 bits where there are more.
pub fn total(sets: &[u64]) -> u64
    ensures { result ≡ total_of sets.now }
{
    let mut all: u64 = 0;
    for count in sets {
        all = all.saturating_add(*count);
    }
    all
}
