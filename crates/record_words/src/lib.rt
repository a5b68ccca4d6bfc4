// What is done with the words of a sum where a text is read: the sums that name a symbol, and records that are written. With `records` this crate
// knows the words of a sum; other crates hold a sum and pass it on.
// These functions are the inside of the entries above. They ask what the entries have tested.
#![tactic(auto)]

pub mod symbols;
pub mod writing;
