// What points and duals of a model say of another one with the same groups: one whose rows have other
// numbers, and one whose first row is the last. It has no code: its files in specs/ are what other
// crates cite.
#![tactic(auto)]
