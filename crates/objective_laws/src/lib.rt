// Where the objective of the solver's model stands: the place to which the bridges lead from the root of
// the user's objective. It has no code: its files in specs/ are what other crates cite.
#![tactic(auto)]
