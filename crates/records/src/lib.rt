// How a wire stands in memory, and the sum of the records of a set of wires.
// The words of a sum are known here, in `shares`, `breaking`, `carriers`, `record_tests` and `record_words`: other crates hold a sum and pass it on.
// These functions are the inside of the entries above. They ask what the entries have tested.
#![tactic(auto)]

pub mod layout;
pub mod sums;
