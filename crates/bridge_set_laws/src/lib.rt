// What bridges keep after an edit: those that release the touched items lose exactly the nodes of these,
// and if they then keep what is planned, they keep the nodes of the new bridging. It has no code: its
// files in specs/ are what other crates cite.
#![tactic(auto)]
