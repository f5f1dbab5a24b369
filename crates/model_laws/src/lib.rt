// What holds of the user's models: every accepted edit keeps them consistent and within their
// limits. It has no code: its files in specs/ are what other crates cite.
#![tactic(auto)]
