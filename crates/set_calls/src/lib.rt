// The numbering of wire sets and the jobs of a division.
#![tactic(auto)]

ghost use Rattle.std.specs.Prelude.{◌≡◌, [], ◌∷◌};
ghost use Rattle.sets.specs.Answers.{set_count, set_from_rank, rank_from_set};
ghost use Rattle.division.specs.Answers.{job_ranks};
ghost use Rattle.call_answers.specs.Calls.{got, answered, lent_answered};
ghost use Rattle.call_answers.specs.Meaning.{Kept, CountSays, SetSays, RankSays, JobSays};

// How many sets of `size` out of `wires` wires there are.
pub fn set_count(wires: usize, size: usize, sets: &mut u64) -> u64
    ensures sets_after { got result (sets.new ∷ []) [] ≡ answered (set_count wires size) (sets.old ∷ []) [] }
    ensures kept { Kept result (sets.new ∷ []) (sets.old ∷ []) [] [] }
    ensures count_says { CountSays result sets.new wires size }
{
    // kept: C has a status number and lent numbers, by the contract of `calduvren_set_count`
    match sets::set_count(wires, size) {
        Ok(count) => {
            *sets = count;
            0
        }
        Err(why) => why.number(),
    }
}

// Writes the set at a rank, rising, at the start of `set`.
pub fn set_from_rank(wires: usize, size: usize, rank: u64, set: &mut [u16]) -> u64
    ensures set_after { got result [] set.new ≡ lent_answered (set_from_rank wires size rank set.old) [] }
    ensures kept { Kept result [] [] set.new set.old }
    ensures set_says { SetSays result wires size rank set.old set.new }
{
    match sets::set_from_rank(wires, size, rank, set) {
        Ok(()) => 0,
        Err(why) => why.number(),
    }
}

// The rank of a set among the sets of its size.
pub fn rank_from_set(wires: usize, set: &[u16], rank: &mut u64) -> u64
    ensures rank_after { got result (rank.new ∷ []) [] ≡ answered (rank_from_set wires set.now) (rank.old ∷ []) [] }
    ensures kept { Kept result (rank.new ∷ []) (rank.old ∷ []) [] [] }
    ensures rank_says { RankSays result rank.new wires set.now }
{
    match sets::rank_from_set(wires, set) {
        Ok(place) => {
            *rank = place;
            0
        }
        Err(why) => why.number(),
    }
}

// The ranks that job number `job` of `jobs` has to visit.
pub fn job(wires: usize, size: usize, job: u64, jobs: u64, from: &mut u64, to: &mut u64) -> u64
    ensures to_after { got result (from.new ∷ to.new ∷ []) [] ≡ answered (job_ranks wires size job jobs) (from.old ∷ to.old ∷ []) [] }
    ensures kept { Kept result (from.new ∷ to.new ∷ []) (from.old ∷ to.old ∷ []) [] [] }
    ensures job_says { JobSays result from.new to.new wires size job jobs }
{
    match division::job(wires, size, job, jobs) {
        Ok(ranks) => {
            *from = ranks.from;
            *to = ranks.to;
            0
        }
        Err(why) => why.number(),
    }
}
