// The engine for callers in C: sixteen entries of the crates below as exported functions on numbers and slices (`include/calduvren.h`). A call
// returns a status, 0 or the scope's number of the refusal, and gives its values through lent numbers. Every argument may be anything its type
// holds; a refusal alters nothing that is lent, but for the offset at which reading refuses a text. An exported function has to stand in the crate
// of the library: each passes its arguments on to the function of the same promise in `set_calls`, `table_calls`, `verdict_calls`, `text_calls`, `page_calls`, `size_calls` or `pool_calls`.
#![tactic(auto)]

pub mod numbering;
pub mod reports;
pub mod tables;
pub mod texts;
