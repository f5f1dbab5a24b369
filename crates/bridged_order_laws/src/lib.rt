//! The law of one order: what `bridged` prints, whose objective's line comes last, is the text of
//! all leaves in one order of addresses, variables, rows and the objective merged. The law is stated
//! by a function that does nothing; its files in specs/ are what other crates cite.
#![tactic(auto)]

ghost use Rattle.bridged_order_laws.specs.Merged.{PrintsInOrder};

/// States the law, of the fresh bridging of a valid model, as long as each edge costs something and
/// each family keeps the law of its edges: the objective's address is above those of all other
/// leaves, so the text is that of the leaves in the order of their addresses.
pub fn in_address_order()
    ensures { PrintsInOrder }
{}
