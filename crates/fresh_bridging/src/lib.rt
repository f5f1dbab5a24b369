// The fresh bridging of a user's model: what an attached solver's model is to be, as definitions
// on the user's model, a table and the families of bridges alone, and their laws. It has no code:
// its files in specs/ are what other crates cite.
#![tactic(auto)]
