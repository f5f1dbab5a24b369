// The rows of a model are bridged each by itself: with fewer rows, or with a row again under a later
// number, a model that is bridged is bridged too. It has no code: its files in specs/ are what other
// crates cite.
#![tactic(auto)]
