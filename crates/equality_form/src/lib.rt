// The equality form of a solver's model by address, and what a right answer for it says of the
// model. It has no code: its files in specs/ are what other crates cite.
#![tactic(auto)]
