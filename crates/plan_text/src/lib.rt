// The size of a check beforehand (request No. 3): from a text alone, with no table lent, the figures that reading would give and the number of
// wire sets of each size. The text may be anything: one that reading turns down gets reading's number and offset. `total` and `write_sets` are passed
// on from `sets_by_size`.
#![tactic(auto)]

ghost use Rattle.std.specs.Prelude.{◌≡◌};
ghost use Rattle.plan_text.specs.Answers.{size_told, check_size};
ghost use Rattle.plan_text.specs.Says.{SizeSays};

pub use description::Fault;
use limits::{MAX_ORDER, MAX_TABLE_BYTES, RECORD_BYTES};
use scratch_reader::read_scratch;
use sets_by_size::set_counts;
pub use sets_by_size::{total, write_sets};

// The figures of a text, the bytes of the table that it needs among them, and the number of sets of size k at k - 1, for the sizes from 1 to the
// order; the rest is 0.
#[derive(Clone, Copy)]
pub struct CheckSize {
    pub order: usize,
    pub shares: usize,
    pub masks: usize,
    pub wires: usize,
    pub bytes: usize,
    pub sets: [u64; MAX_ORDER],
}

// What a check of a text takes, or why the text is turned down, and the byte offset.
pub fn check_size(text: &[u8]) -> Result<CheckSize, Fault>
    ensures result_value { size_told result ≡ check_size text.now }
    ensures size_says { SizeSays result text.now }
{
    let mut scratch = [0u8; MAX_TABLE_BYTES];
    let read = read_scratch(text, &mut scratch)?;
    Ok(CheckSize {
        order: read.order,
        shares: read.shares,
        masks: read.masks,
        wires: read.wires,
        bytes: RECORD_BYTES * read.wires,
        sets: set_counts(read.wires, read.order),
    })
}

// The numbers of sets that an answer tells. A text that is turned down has no sets: each of the seven numbers is 0.
pub fn sets_told(answer: Result<CheckSize, Fault>) -> [u64; MAX_ORDER]
    ensures { result ≡ (size_told answer).sets }
{
    match answer {
        Ok(size) => size.sets,
        Err(_) => [0; MAX_ORDER],
    }
}
