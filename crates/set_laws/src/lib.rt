// Sets and their duals: that the least product is least and reached, what leads nowhere out of a
// set, what the dual of a cone is, and what negation does to a set. It has no code: its files in
// specs/ are what other crates cite.
#![tactic(auto)]
