//! Why an edit is refused.
use ratio_core::Memory;
use thiserror::Error;

/// Why an edit is refused. Where several of these hold, the first is the answer.
#[derive(Clone, Copy, Debug, PartialEq, Eq, Error)]
pub enum Refusal {
    /// 2: no variable or row has a name that the edit needs.
    #[error("a name is of no variable or row")]
    UnknownName,
    /// 3: a new name is there already, or stands twice in the edit.
    #[error("a new name is taken")]
    NameTaken,
    /// 4: the function, or what stands at the name, has not the shape that the edit needs.
    #[error("a function has the wrong shape")]
    FunctionShape,
    /// 5: a vector set's dimension is not the number of components, is 0, or is 1 for a norm cone.
    #[error("a set has the wrong dimension")]
    BadDimension,
    /// 6: an output is 0 or above the number of the row's components.
    #[error("an output is none of the row's")]
    OutputIndex,
    /// 7: an interval's lower bound is above its upper bound.
    #[error("an interval is empty")]
    BadInterval,
    /// 8: the variable of a new bound has a lower bound.
    #[error("a lower bound is set already")]
    LowerBoundAlreadySet,
    /// 9: the variable of a new bound has an upper bound.
    #[error("an upper bound is set already")]
    UpperBoundAlreadySet,
    /// 10: a new set is of another type than the old one.
    #[error("a set has another type")]
    SetTypeMismatch,
    /// 11: the variable stands in a norm cone.
    #[error("a variable of a norm cone is not deleted")]
    DeleteNotAllowed,
    /// 12: the model would have more of something than it may.
    #[error("{count} are more than {limit}")]
    Full { count: u64, limit: u64 },
}

/// Why an edit was not made. The model is as it was.
#[derive(Clone, Copy, Debug, PartialEq, Eq, Error)]
pub enum ApplyFault {
    #[error("{0}")]
    Refused(Refusal),
    /// Memory ran out.
    #[error("{}", Memory)]
    Memory,
}

impl From<Memory> for ApplyFault {
    fn from(_fault: Memory) -> ApplyFault {
        ApplyFault::Memory
    }
}
