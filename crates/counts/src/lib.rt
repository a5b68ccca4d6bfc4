// How many sets of a size there are: a table fixed in the source (scope, "Numbering and dividing").
#![tactic(auto)]

ghost use Rattle.std.specs.Prelude.{◌≡◌, ◌≤◌};
ghost use Rattle.limits.specs.Limits.{max_wires, max_size};
ghost use Rattle.counts.specs.Counts.{binom, Counts};

use limits::{COUNTS, SIZES};

mod pascal;

// The table of counts. It is built anew at each call: hold it.
pub fn table() -> [u64; COUNTS]
    ensures { Counts result }
{
    pascal::PASCAL
}

// The number of sets of k out of n wires.
pub fn count(table: &[u64; COUNTS], n: usize, k: usize) -> u64
    requires counts { Counts table.now }
    requires n_le_max_wires { (n ≤ max_wires) × (k ≤ max_size) }
    ensures { result ≡ binom n k }
{
    table[SIZES * n + k]
}
