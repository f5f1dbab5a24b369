//! Laws of finite maps, of entries in the order of their keys, of sums over them, and of lists by
//! place. It has no code.
#![tactic(auto)]
