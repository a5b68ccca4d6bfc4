// 100,000 trips from a rank of seven out of 512 wires to its set and back, with the table of counts held once. It counts
// those that come back to their rank. Timed from outside, this is the cost of the numbering.
#![tactic(auto)]

const TRIPS: u64 = 100000;

ghost use Rattle.std.specs.Prelude.{◌≡◌, ◌<◌, ◌≤◌};
ghost use Rattle.counts.specs.Counts.{binom, Counts};

use limits::COUNTS;
use std::io;

const WIRES: usize = 512;

const SIZE: usize = 7;

fn main(rt: HostRuntime) -> io::Result<()> {
    let table = counts::table();
    let all = counts::count(&table, WIRES, SIZE);
    let returned = if 0 < all { trips(&table, all) } else { 0 };
    println!(rt; "{returned} of {TRIPS} trips returned to their rank")
}

// How many of the trips come back to their rank.
fn trips(table: &[u64; COUNTS], all: u64) -> u64
    requires counts { Counts table.now }
    requires all_nonzero { (0 < all) × (all ≡ binom 512 7) }
{
    let mut returned: u64 = 0;
    let mut seed: u64 = 0;
    for trip in 0..TRIPS {
        // The golden ratio's step, modulo 2^64, spreads the ranks over the whole order.
        seed = seed.wrapping_add(11400714819323198485);
        returned += u64::from(there_and_back(table, seed % all));
    }
    returned
}

// Whether the set at the rank has that rank.
fn there_and_back(table: &[u64; COUNTS], rank: u64) -> bool
    requires counts { Counts table.now }
    requires rank_bound { rank < binom 512 7 }
{
    let mut set = [0u16; 7];
    revolving::unrank(table, WIRES, SIZE, rank, &mut set);
    revolving::is_rising(WIRES, &set) && revolving::rank(table, WIRES, &set) == rank
}
