// The linear algebra of affine functions: their values and slopes by their coefficients. It has no
// code: its files in specs/ are what other crates cite.
#![tactic(auto)]
