// Items expanded along chosen edges: each item is native, or is replaced by what stands below it.
// It has no code: its files in specs/ are what other crates cite.
#![tactic(auto)]
