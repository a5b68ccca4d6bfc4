// What a table's entries ask of the words of a sum: whether it has no bit beyond the shares and masks, the sums that name a function, and whether no bit
// is left. With `records` this crate knows the words of a sum; other crates hold a sum and pass it on.
// These functions are the inside of the entries above. They ask what the entries have tested.
#![tactic(auto)]

pub mod functions;
pub mod tests;
