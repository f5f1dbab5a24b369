// The relaxation of a model, as a model: what it is, by how much a point misses the rows that are
// relaxed, and that the relaxation finds the least. It has no code: its files in specs/ are what
// other crates cite.
#![tactic(auto)]
