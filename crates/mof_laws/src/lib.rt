// What is written of a model reads back as the edits that make it. It has no code: its files in
// specs/ are what other crates cite.
#![tactic(auto)]
