// The answers of the entries of `verdict`, and why each entry turns its arguments down (scope, "What each operation turns down").
// What an entry is to answer is in specs/, and what follows from it, for all that the entries accept, in proofs/. Of the code both know these types
// alone.
#![tactic(auto)]

ghost use Rattle.std.specs.Prelude.{◌≡◌};
ghost use Rattle.verdict_answers.specs.Answers.{refusal_number};
ghost use Rattle.verdict_answers.specs.declared.Refusal.TheVariants.{Table, NoSuchNotion};

// Why an entry turns its arguments down.
#[derive(Clone, Copy)]
pub enum Refusal {
    Table(table::Refusal),
    NoSuchNotion,
    OrderOutOfRange,
    BufferTooShort,
    SizeTooLarge,
    RanksOutOfRange,
    NotASet,
}

impl Refusal {
    // The scope's number of the refusal.
    pub fn number(self) -> u64
        ensures { result ≡ refusal_number self }
    {
        match self {
            Refusal::Table(why) => why.number(),
            Refusal::NoSuchNotion => 14,
            Refusal::OrderOutOfRange => 15,
            Refusal::BufferTooShort => 16,
            Refusal::SizeTooLarge => 17,
            Refusal::RanksOutOfRange => 18,
            Refusal::NotASet => 21,
        }
    }
}

impl From<table::Refusal> for Refusal {
    ghost from_gives = { λ why e. e ≡ Table why };

    fn from(why: table::Refusal) -> Refusal {
        Refusal::Table(why)
    }
}

impl From<wires::NoSuchNotion> for Refusal {
    ghost from_gives = { λ _ e. e ≡ NoSuchNotion };

    fn from(_none: wires::NoSuchNotion) -> Refusal {
        Refusal::NoSuchNotion
    }
}

// Of a verdict: broken gives the size of the set that is written.
#[derive(Clone, Copy)]
pub enum Judged {
    Holds,
    Broken { size: usize },
}

// Of a range check: found gives the size of the set that is written, and its rank.
#[derive(Clone, Copy)]
pub enum Checked {
    Clean,
    Found { size: usize, rank: u64 },
}

// On how many shares of a and of b a set depends, how many of each the notion allows it, and whether a mask is left in its sum.
#[derive(Clone, Copy)]
pub struct DependsOn {
    pub of_a: usize,
    pub of_b: usize,
    pub allowed: usize,
    pub masked: bool,
}
