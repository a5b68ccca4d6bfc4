// The range check: whether a gadget's table holds NI or SNI at a range of ranks of one size, with the first breaking set where it does not, so that
// machines can divide the search (scope, "Numbering and dividing" and "What each operation turns down").
// Every argument may be anything its type holds: what is out of range is refused, in the scope's order, and a refusal alters no lent number.
#![tactic(auto)]

ghost use Rattle.std.specs.Prelude.{◌≡◌};
ghost use Rattle.verdict_answers.specs.Answers.{range_told, range_check};
ghost use Rattle.verdict_answers.specs.First.{RangeFinds};

use counts::count;
use limits::{MAX_SIZE, RECORD_BYTES};
use opening::{opening, write};
use verdict_answers::{Checked, Refusal};

// Whether a set of one size breaks the notion at a rank from `from` up to, without, `to`. The first such set is written, rising, at the
// start of `set`.
pub fn range_check(
    table: &[u8],
    shares: usize,
    masks: usize,
    notion: usize,
    size: usize,
    from: u64,
    to: u64,
    set: &mut [u16],
) -> Result<Checked, Refusal>
    ensures set_after { range_told result set.new ≡ range_check table.now shares masks notion size from to set.old }
    ensures range_finds { RangeFinds result table.now shares masks notion size from to set.old set.new }
{
    let kind = opening(table, shares, masks, notion)?;
    if MAX_SIZE < size {
        return Err(Refusal::SizeTooLarge);
    }
    if set.len() < size {
        return Err(Refusal::BufferTooShort);
    }
    let counts = counts::table();
    let all = count(&counts, table.len() / RECORD_BYTES, size);
    if to < from {
        return Err(Refusal::RanksOutOfRange);
    }
    if all < to {
        return Err(Refusal::RanksOutOfRange);
    }
    let mut probes = [0u16; MAX_SIZE];
    match search::first_rank(table, &counts, kind, size, from, to, &mut probes) {
        None => Ok(Checked::Clean),
        Some(rank) => {
            write(&probes[0..size], set);
            Ok(Checked::Found { size, rank })
        }
    }
}
