// The wires that a directed search has chosen (docs/DECISIONS.md, "The directed verdict"): their marks, their rank, and what is kept of it. These
// functions ask what the search has at hand.
#![tactic(auto)]

ghost use Rattle.std.specs.Prelude.{◌≡◌, ◌≤◌, ◌&&◌, eqb, length, take};
ghost use Rattle.limits.specs.Limits.{max_shares, max_masks, max_table_bytes, max_wires, max_size};
ghost use Rattle.counts.specs.Counts.{Counts};
ghost use Rattle.revolving.specs.Order.{rank_of};
ghost use Rattle.shares.specs.Ones.{Ones};
ghost use Rattle.records.specs.Layout.{wire_count, terms_of};
ghost use Rattle.parts.specs.Parts.{members};
ghost use Rattle.wires.specs.Wires.{masked, sum_breaks};
ghost use Rattle.choices.specs.Marks.{is_chosen, Settled};

use breaking::{is_masked, sum_breaks};
use limits::{COUNTS, MAX_SIZE, MAX_WIRES, RECORD_BYTES};
use records::sums::Sum;
use revolving::rank;
use shares::ones::WORDS;

// The marks of a wire: it may still be chosen, it may not, it is.
// kept: settle and descend take marks of any byte, which docs/PROMISES.md promises; a narrower type would ask more of callers
pub const OPEN: u8 = 0;

pub const CLOSED: u8 = 1;

pub const CHOSEN: u8 = 2;

// Writes the chosen wires, rising, to the start of a set.
fn gather(marks: &[u8; MAX_WIRES], wires: usize, set: &mut [u16])
    requires { (wires ≤ max_wires) × (length (members wires (is_chosen marks.now)) ≤ length set.old) }
    ensures { take (length (members wires (is_chosen marks.now))) set.new ≡ members wires (is_chosen marks.now) }
{
    let mut size = 0;
    for (wire, mark) in marks[0..wires].iter().enumerate() {
        if *mark == CHOSEN {
            set[size] = wire as u16;
            size += 1;
        }
    }
}

// The rank of the chosen wires.
fn rank_of_chosen(counts: &[u64; COUNTS], wires: usize, size: usize, marks: &[u8; MAX_WIRES]) -> u64
    requires counts { Counts counts.now }
    requires wires_le_max_wires { (wires ≤ max_wires) × (size ≤ max_size) × (length (members wires (is_chosen marks.now)) ≡ size) }
    ensures { result ≡ rank_of wires (members wires (is_chosen marks.now)) }
{
    let mut set = [0u16; MAX_SIZE];
    gather(marks, wires, &mut set);
    rank(counts, wires, &set[0..size])
}

// The lower of what was found before and of the rank of the chosen wires, where they break.
pub fn settle(
    table: &[u8],
    counts: &[u64; COUNTS],
    ones: &[u8; WORDS],
    size: usize,
    marks: &[u8; MAX_WIRES],
    sum: Sum,
    paid: usize,
    least: u64,
) -> u64
    requires counts { Counts counts.now × Ones ones.now }
    requires table_len_bound { (length table.now ≤ max_table_bytes) × (size ≤ max_size) × (length (members (wire_count table.now) (is_chosen marks.now)) ≡ size) }
    ensures { Settled (sum_breaks max_shares max_masks paid (terms_of sum)) (rank_of (wire_count table.now) (members (wire_count table.now) (is_chosen marks.now))) least result }
{
    if sum_breaks(ones, sum, paid) {
        let rank = rank_of_chosen(counts, table.len() / RECORD_BYTES, size, marks);
        if rank < least {
            return rank;
        }
    }
    least
}

// Whether a sum with the last wire added keeps a mask: such a wire is passed over.
pub fn leaves_masks(sum: Sum, left: usize) -> bool
    ensures { result ≡ (eqb left 1 && masked max_masks (terms_of sum)) }
{
    if left != 1 {
        return false;
    }
    is_masked(sum)
}
