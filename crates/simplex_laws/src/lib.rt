//! Why the exact simplex is right: laws of its definitions, which other crates cite.
#![tactic(auto)]
