// What an edit leaves as it is, and what it changes: an item that isn't touched holds the same leaves
// and nodes before and after, so the fresh bridging after an edit is the one before, less what the
// touched items held, with what they hold now. It has no code: its files in specs/ are what other
// crates cite.
#![tactic(auto)]
