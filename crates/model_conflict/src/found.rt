//! What is found of a model's rows.
use cert_core::Certificate;
use lists::Sequence;
use name_index::Names;
use ratio_core::Ratios;

/// Points, each a number for each of the model's variables, in the model's order.
pub type Points = Sequence<Ratios>;

/// Whether a model has a feasible point, and why not.
#[derive(Debug, Drop)]
pub enum Found {
    /// It has this one.
    Feasible {
        x: Ratios,
    },
    /// These rows, in the model's order, can't hold together: the certificate is of them alone. None
    /// of them can be left out: each has a point that meets all others of them.
    Conflict {
        rows: Names,
        certificate: Certificate,
        points: Points,
    },
}
