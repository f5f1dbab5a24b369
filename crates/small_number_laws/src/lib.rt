//! The law of small numbers: bridging a model of whole numbers of at most 2^40 in size never
//! overflows, whatever the table and the families of bridges. The law is stated by a function that
//! does nothing; its files in specs/ are what other crates cite.
#![tactic(auto)]

ghost use Rattle.small_number_laws.specs.SmallNumbers.{SmallNumbersFit};

/// States the law: no number of the fresh bridging of a valid model of small numbers overflows, as
/// long as each edge costs something and each family keeps the law of its edges.
pub fn small_numbers_fit()
    ensures { SmallNumbersFit }
{}
