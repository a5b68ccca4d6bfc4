// The multiplication of Ishai, Sahai and Wagner (request No. 2): how its text is asked for and answered, what the text is (in specs/) and what is
// true of it (in proofs/): it is read without refusal and computes the product, at every order.
#![tactic(auto)]

ghost use Rattle.std.specs.Prelude.{◌≡◌};
ghost use Rattle.isw_gadget.specs.Answers.{refusal_number};

// The highest order that is written.
pub const MAX_ISW_ORDER: usize = 7;

// Why no text is written.
#[derive(Clone, Copy)]
pub enum Refusal {
    OrderOutOfRange,
    TextDoesNotFit,
}

impl Refusal {
    // The number of the refusal.
    pub fn number(self) -> u64
        ensures { result ≡ refusal_number self }
    {
        match self {
            Refusal::OrderOutOfRange => 23,
            Refusal::TextDoesNotFit => 24,
        }
    }
}
