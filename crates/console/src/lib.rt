// What the programs have in common: how they read standard input and their argument, print, tell a time, and say why a text is refused. It
// knows nothing of what the one or the other is asked for.
#![tactic(auto)]

pub mod arguments;
pub mod input;
pub mod lines;
pub mod output;
pub mod refusals;
pub mod saying;
pub mod times;
