// Duals down and values up along the fresh bridging: a right answer for the leaf model is carried
// to a certificate that is good for the user's model, whatever families there are, as long as each
// keeps the law of its edges. It has no code: its files in specs/ are what other crates cite.
#![tactic(auto)]
