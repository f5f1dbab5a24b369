//! What answers mean, in the field's words: a good certificate leaves no better point, or no
//! feasible one, or none that is best; the least product of a set is least, and is reached; and
//! the basis of an answer of the simplex is the last of its trail. Each law is the clause of a
//! function that does nothing; its files in specs/ are what other crates cite.
#![tactic(auto)]

ghost use Rattle.answer_meaning_laws.specs.GoodCertificates.{GoodCertificatesShow};
ghost use Rattle.answer_meaning_laws.specs.LeastProducts.{LowIsLeast};
ghost use Rattle.answer_meaning_laws.specs.Trails.{AnswersEndTrails};

/// States the law of good certificates of valid models: no feasible point has a better objective
/// than an optimal one's value, no point is feasible where the certificate is one of infeasibility,
/// and where it is one of an unbounded model each number is improved on by a feasible point.
pub fn good_certificates()
    ensures { GoodCertificatesShow }
{}

/// States the law of what `Set::low` answers: for a vector of the dual set it is at most the
/// product with each vector of the set, and it is the product with one of them.
pub fn least_products()
    ensures { LowIsLeast }
{}

/// States the law of what `simplex_core::solve` answers: its basis is the last of the trail with as
/// many pivots as were made, which is at its end exactly where there is an answer.
pub fn ends_of_trails()
    ensures { AnswersEndTrails }
{}
