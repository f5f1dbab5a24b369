// The laws of the rational numbers: an ordered field, sums over lists, and two ways to prove
// equations and inequalities in one line. It has no code: its files in specs/ are what other crates
// cite.
#![tactic(auto)]
