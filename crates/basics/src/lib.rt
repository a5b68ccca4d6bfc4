// Definitions and facts that every crate uses and that know nothing of wires: they stand in `specs/` and `proofs/`.
#![tactic(auto)]
