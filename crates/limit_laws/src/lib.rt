// Edits that can be refused for nothing but a limit of models, and the model that they lead to. It has
// no code: its files in specs/ are what other crates cite.
#![tactic(auto)]
