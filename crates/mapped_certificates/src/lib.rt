//! Certificates of models some of whose rows are in sets seen through maps.
//!
//! The files in specs/ say which are good, that a good certificate of the model with the mapped rows
//! gives one when the rows' duals are taken back, and what each that is good shows. The laws are the
//! clauses of functions that do nothing.
#![tactic(auto)]

ghost use Rattle.mapped_certificates.specs.Law.{GoodSeenShow, GoodTakenBack, GoodWithoutUses};

/// States the law of duals taken back: where each row of a model stands for one as it is seen, by
/// itself or as M f in the cone, a good certificate of the model is good for the rows as they are seen,
/// with the duals of the mapped rows taken back by the transpose of M.
pub fn duals_taken_back()
    ensures { GoodTakenBack }
{}

/// States the law of certificates that are good for rows as they are seen, where the rows of a valid
/// model stand for these: no feasible point has a better objective than an optimal one's value, no
/// point is feasible where the certificate is one of infeasibility, and where it is one of an
/// unbounded model each number is improved on by a feasible point.
pub fn good_certificates_seen()
    ensures { GoodSeenShow }
{}

/// States that without uses a certificate is good for the rows as they are seen exactly where it is
/// good for the model.
pub fn good_without_uses()
    ensures { GoodWithoutUses }
{}
