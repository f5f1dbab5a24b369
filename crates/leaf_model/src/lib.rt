// A solver's model by the addresses of its leaves. It has no code: its files in specs/ are what
// other crates cite.
#![tactic(auto)]
