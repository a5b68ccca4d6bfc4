// A walk over the sets of one size that keeps a tally of the set where it stands: the sum of its records, and how many of its wires pay. At the
// start the tally is made from the whole set; from one set to the next one record leaves it and one enters. No record is copied. These functions
// ask what the entries have tested.
#![tactic(auto)]

ghost use Rattle.std.specs.Prelude.{◌≡◌, ◌+◌, ◌≤◌, ◌<◌, length, get_or, take};
ghost use Rattle.limits.specs.Limits.{max_wires, max_size};
ghost use Rattle.basics.specs.Folds.{one_if};
ghost use Rattle.counts.specs.Counts.{binom, Counts};
ghost use Rattle.wires.specs.Wires.{plus, pays};
ghost use Rattle.records.specs.Layout.{wire_at, wire_count, terms_of};
ghost use Rattle.revolving.specs.Order.{set_at};
ghost use Rattle.walk.specs.Neighbours.{HasNext, next_set};
ghost use Rattle.walk.specs.Places.{room};
ghost use Rattle.running.specs.Kept.{Kept};

use breaking::pay;
use counts::count;
use limits::COUNTS;
use records::sums;
use records::sums::{Sum, with_wire};
use revolving::unrank;
use wires::Notion;

// The sum of a set's records, and how many of its wires pay for a share.
#[derive(Clone, Copy)]
pub struct Tally {
    pub sum: Sum,
    pub paid: usize,
}

// The lowest wire that a set has after a slide, and the set's tally.
#[derive(Clone, Copy)]
pub struct Slid {
    pub lowest: usize,
    pub tally: Tally,
}

// Writes the set at a rank to the start of `probes`, and makes its tally. Where there is no such rank nothing is promised.
pub fn start(
    table: &[u8],
    counts: &[u64; COUNTS],
    notion: Notion,
    wires: usize,
    size: usize,
    rank: u64,
    probes: &mut [u16],
) -> Tally
    requires counts { Counts counts.now }
    requires wires_value { (wires ≡ wire_count table.now) × (wires ≤ max_wires) × (size ≤ max_size) × (size ≤ length probes.old) }
    ensures { rank < binom wires size → (take size probes.new ≡ set_at wires size rank) × Kept notion table.now (take size probes.new) result }
{
    if count(counts, wires, size) <= rank {
        return Tally {
            sum: sums::nothing(),
            paid: 0,
        };
    }
    unrank(counts, wires, size, rank, probes);
    Tally {
        sum: sums::sum_of_set(table, &probes[0..size]),
        paid: breaking::payers(table, notion, &probes[0..size]),
    }
}

// A tally without one wire and with another: two additions, whatever the size.
fn exchanged(tally: Tally, table: &[u8], notion: Notion, leaves: usize, enters: usize) -> Tally
    requires { (leaves < wire_count table.now) × (enters < wire_count table.now) × (one_if (pays notion (wire_at table.now leaves)) ≤ tally.paid) × (tally.paid ≤ max_size) }
    ensures sum_value { terms_of result.sum ≡ plus (plus (terms_of tally.sum) (wire_at table.now leaves).terms) (wire_at table.now enters).terms }
    ensures leaves_value { result.paid + one_if (pays notion (wire_at table.now leaves)) ≡ tally.paid + one_if (pays notion (wire_at table.now enters)) }
{
    let left = with_wire(tally.sum, table, leaves);
    Tally {
        sum: with_wire(left, table, enters),
        paid: tally.paid + pay(table, notion, enters) - pay(table, notion, leaves),
    }
}

// Takes the walk to the next set, at the start of `probes`.
pub fn advance(
    table: &[u8],
    notion: Notion,
    wires: usize,
    size: usize,
    probes: &mut [u16],
    tally: Tally,
) -> Tally
    requires wires_value { (wires ≡ wire_count table.now) × (wires ≤ max_wires) × (size ≤ max_size) × (size ≤ length probes.old) }
    requires has_next { HasNext wires (take size probes.old) × Kept notion table.now (take size probes.old) tally }
    ensures probes_after { take size probes.new ≡ next_set wires (take size probes.old) }
    ensures kept { Kept notion table.now (take size probes.new) result }
{
    let change = walk::step(wires, &mut probes[0..size]);
    exchanged(tally, table, notion, change.leaves, change.enters)
}

// The same where the lowest wire, which the caller has at hand, can move: the steps of a search are mostly these.
pub fn slide(
    table: &[u8],
    notion: Notion,
    wires: usize,
    size: usize,
    probes: &mut [u16],
    lowest: usize,
    tally: Tally,
) -> Slid
    requires wires_value { (wires ≡ wire_count table.now) × (wires ≤ max_wires) × (size ≤ max_size) × (size ≤ length probes.old) }
    requires has_next { HasNext wires (take size probes.old) × Kept notion table.now (take size probes.old) tally }
    requires lowest_value { (lowest ≡ get_or probes.old 0 0) × (0 < room wires (take size probes.old)) }
    ensures probes_after { take size probes.new ≡ next_set wires (take size probes.old) }
    ensures kept { Kept notion table.now (take size probes.new) result.tally }
    ensures lowest_value_2 { (result.lowest ≡ get_or probes.new 0 0) × (room wires (take size probes.new) + 1 ≡ room wires (take size probes.old)) }
{
    let enters = walk::slide(wires, &mut probes[0..size], lowest);
    Slid {
        lowest: enters,
        tally: exchanged(tally, table, notion, lowest, enters),
    }
}
