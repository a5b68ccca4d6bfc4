// The answers of the entries of `pool`, and why each entry turns its arguments down (request No. 5).
// What an entry is to answer is in specs/, and what follows from it, for all that the entries accept, in proofs/. Of the code both know these types
// alone.
#![tactic(auto)]

ghost use Rattle.std.specs.Prelude.{◌≡◌};
ghost use Rattle.pool_answers.specs.Answers.{refusal_number};
ghost use Rattle.pool_answers.specs.declared.Refusal.TheVariants.{Tests};

// Why an entry turns its arguments down. `Tests` are those of a verdict.
#[derive(Clone, Copy)]
pub enum Refusal {
    Tests(verdict_answers::Refusal),
    Misfiled,
    FalseFind,
}

impl Refusal {
    // The number of the refusal, as the requests have it.
    pub fn number(self) -> u64
        ensures { result ≡ refusal_number self }
    {
        match self {
            Refusal::Tests(why) => why.number(),
            Refusal::Misfiled => 25,
            Refusal::FalseFind => 26,
        }
    }
}

impl From<verdict_answers::Refusal> for Refusal {
    ghost from_gives = { λ why e. e ≡ Tests why };

    fn from(why: verdict_answers::Refusal) -> Refusal {
        Refusal::Tests(why)
    }
}

// What the reports come to: broken gives the first size and rank found, uncovered the first that no report covers.
#[derive(Clone, Copy)]
pub enum Outcome {
    Holds,
    Broken { size: usize, rank: u64 },
    Uncovered { size: usize, rank: u64 },
}
