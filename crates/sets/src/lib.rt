// The numbering of wire sets: how many sets of a size there are, the set at a rank, the rank of a set (scope, "Numbering
// and dividing"). Every argument may be anything its type holds: what is out of range is refused, in the scope's order, and
// a refusal alters no lent number.
#![tactic(auto)]

ghost use Rattle.std.specs.Prelude.{◌≡◌, MatchResult};
ghost use Rattle.basics.specs.Conditions.{First, None};
ghost use Rattle.sets.specs.Answers.{refusal_number, count_told, set_told, rank_told, set_count, set_from_rank, rank_from_set};
ghost use Rattle.sets.specs.Conditions.{count_conditions};

use limits::{MAX_SIZE, MAX_WIRES};

// Why an entry, here or in `division`, turns its arguments down.
#[derive(Clone, Copy)]
pub enum Refusal {
    TooManyWires,
    SizeTooLarge,
    BufferTooShort,
    RankTooLarge,
    NoSuchJob,
    NotASet,
}

impl Refusal {
    // The scope's number of the refusal.
    pub fn number(self) -> u64
        ensures { result ≡ refusal_number self }
    {
        match self {
            Refusal::TooManyWires => 12,
            Refusal::SizeTooLarge => 17,
            Refusal::BufferTooShort => 16,
            Refusal::RankTooLarge => 18,
            Refusal::NoSuchJob => 19,
            Refusal::NotASet => 21,
        }
    }
}

// What every entry on the sets of a size tests first.
pub fn within(wires: usize, size: usize) -> Result<(), Refusal>
    ensures { MatchResult result (λ _. None (count_conditions wires size)) (λ why. First (count_conditions wires size) (refusal_number why)) }
{
    if MAX_WIRES < wires {
        return Err(Refusal::TooManyWires);
    }
    if MAX_SIZE < size {
        return Err(Refusal::SizeTooLarge);
    }
    Ok(())
}

// How many sets of `size` out of `wires` wires there are.
pub fn set_count(wires: usize, size: usize) -> Result<u64, Refusal>
    ensures { count_told result ≡ set_count wires size }
{
    within(wires, size)?;
    let table = counts::table();
    Ok(counts::count(&table, wires, size))
}

// Writes the set at a rank, rising, at the start of `set`.
pub fn set_from_rank(wires: usize, size: usize, rank: u64, set: &mut [u16]) -> Result<(), Refusal>
    ensures { set_told result set.new ≡ set_from_rank wires size rank set.old }
{
    within(wires, size)?;
    let table = counts::table();
    let all = counts::count(&table, wires, size);
    if set.len() < size {
        return Err(Refusal::BufferTooShort);
    }
    if all <= rank {
        return Err(Refusal::RankTooLarge);
    }
    revolving::unrank(&table, wires, size, rank, set);
    Ok(())
}

// The rank of a set among the sets of its size.
pub fn rank_from_set(wires: usize, set: &[u16]) -> Result<u64, Refusal>
    ensures { rank_told result ≡ rank_from_set wires set.now }
{
    within(wires, set.len())?;
    if !revolving::is_rising(wires, set) {
        return Err(Refusal::NotASet);
    }
    let table = counts::table();
    Ok(revolving::rank(&table, wires, set))
}
