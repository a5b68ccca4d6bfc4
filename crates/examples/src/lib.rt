// The scope's starred examples, proved jointly: the table stands in `specs/`, the theorem over all of it in `proofs/`. There is no code.
#![tactic(auto)]
