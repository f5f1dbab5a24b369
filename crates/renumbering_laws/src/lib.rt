// Models whose numbers are others in the same order: what is made of one is made of the other,
// under the other's numbers. It has no code: its files in specs/ are what other crates cite.
#![tactic(auto)]
