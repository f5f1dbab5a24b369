// The variables that hold the duals of a row or of a group in the dual of a model, set by set: that
// they give duals of the set, what they count in the adjoint, and that they count at most the least
// product with the set. It has no code: its files in specs/ are what other crates cite.
#![tactic(auto)]
