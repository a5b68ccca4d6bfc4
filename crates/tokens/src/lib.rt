// Bytes and runs of bytes: the inside of the reader. These functions ask what it has tested.
#![tactic(auto)]

pub mod bytes;
