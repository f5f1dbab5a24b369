// An edit of a bridged model, or another table for it: what is to be bridged anew is planned, put in
// the place of what was held in the solver's model and in the bridges, and then the new fresh bridging
// stands. It has no code: its files in specs/ are what other crates cite.
#![tactic(auto)]
