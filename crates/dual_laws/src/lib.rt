// Rows and groups with duals: their pull at a point, their adjoint at a variable, their gap, and
// that the gap is at most the pull. It has no code: its files in specs/ are what other crates cite.
#![tactic(auto)]
