// Sets of wires as tests on wire numbers, and what a breaking set of least size has in each of its parts: a mask. Definitions and theorems only, for any
// number of shares and masks; no byte layout and no search.
#![tactic(auto)]
