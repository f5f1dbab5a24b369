// Groups of variables that are made one after another: their numbers, functions of them, and what a
// point says of them. It has no code: its files in specs/ are what other crates cite.
#![tactic(auto)]
