// The dual of a model, as a model: what it is, what its points are carried to, and the theorem that
// it holds just the model's duals. It has no code: its files in specs/ are what other crates cite.
#![tactic(auto)]
