//! Why Bland's rule ends: within a phase no set of basic columns comes twice.
#![tactic(auto)]
