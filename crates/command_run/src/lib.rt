// The run of a program's command, said once for all commands that answer the file of a model, and one
// lemma that proves it. It has no code: its files in specs/ are what other crates cite.
#![tactic(auto)]
