// What a watcher (the field's adversary) of a few wires can learn, and what that has to do with breaking sets. Definitions and theorems only,
// for any number of shares and masks; no byte layout and no search.
#![tactic(auto)]
