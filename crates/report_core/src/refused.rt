//! Why a line is refused.
ghost use Rattle.std.specs.Prelude.{◌≡◌};
ghost use Rattle.report_core.specs.Refused as texts;

use item_core::Kind;
use mof_values::FaultKind;
use name_index::{Name, Text};
use user_model::Refusal;

/// Where a number exceeds 128 bits.
#[derive(Debug, Drop)]
pub enum Place {
    /// In the sums of the line's own terms.
    Line,
    /// At a group, named by its first variable.
    Var(Name),
    Row(Name),
    Objective,
    Solver,
    /// In the checking of a certificate.
    Check,
}

/// Why a line is refused. The number of each is the one that is printed before its name.
#[derive(Debug, Drop)]
pub enum Refused {
    /// 1: the line isn't in the grammar.
    BadLine,
    /// 2: no variable or row has a name that the edit needs.
    UnknownName,
    /// 3: a new name exists already, or appears twice in the edit.
    NameTaken,
    /// 4: the edit doesn't suit the kind of function.
    FunctionShape,
    /// 5: a set of vectors doesn't have the number of components.
    BadDimension,
    /// 6: an output is 0 or above the row's number of components.
    OutputIndex,
    /// 7: an interval's lower bound is above its upper bound.
    BadInterval,
    /// 8: the variable has a lower bound already.
    LowerBoundAlreadySet,
    /// 9: the variable has an upper bound already.
    UpperBoundAlreadySet,
    /// 10: the new set is of another type.
    SetTypeMismatch,
    /// 11: the variable is in a norm cone.
    DeleteNotAllowed,
    /// 12: the model would have more than it may.
    Full { count: u64, limit: u64 },
    /// 13: no solver is attached.
    NotAttached,
    /// 14: a solver is attached.
    AlreadyAttached,
    /// 15: the equality form would have more cells than it may.
    TooLarge { cells: u64 },
    /// 16: items of this kind can't be bridged.
    Unsupported { kind: Kind },
    /// 17: a number passes 128 bits.
    Overflow { place: Place },
    /// 18: this number of pivots didn't suffice.
    Limit { pivots: u64 },
    /// 19: the model isn't empty.
    NotEmpty,
    /// 20: the file has a fault of this kind at this place.
    File { kind: FaultKind, place: Text },
    /// 21: an edit of the group is refused, the first one, numbered from 1.
    Group { index: u64, refusal: Refusal },
    /// 22: a group is open.
    GroupOpen,
    /// 23: no group is open.
    NoGroup,
}

impl From<Refusal> for Refused {
    ghost use Rattle.report_core.specs.Refused.{refused_of};

    ghost from_gives = { λ refusal refused. refused ≡ refused_of refusal };

    fn from(refusal: Refusal) -> Refused {
        match refusal {
            Refusal::UnknownName => Refused::UnknownName,
            Refusal::NameTaken => Refused::NameTaken,
            Refusal::FunctionShape => Refused::FunctionShape,
            Refusal::BadDimension => Refused::BadDimension,
            Refusal::OutputIndex => Refused::OutputIndex,
            Refusal::BadInterval => Refused::BadInterval,
            Refusal::LowerBoundAlreadySet => Refused::LowerBoundAlreadySet,
            Refusal::UpperBoundAlreadySet => Refused::UpperBoundAlreadySet,
            Refusal::SetTypeMismatch => Refused::SetTypeMismatch,
            Refusal::DeleteNotAllowed => Refused::DeleteNotAllowed,
            Refusal::Full { count, limit } => Refused::Full { count, limit },
        }
    }
}

impl Refused {
    /// The number, 1 to 23, and the name.
    pub fn heading(&self) -> (u8, &'static str)
        ensures number { result.0 ≡ (texts.heading self.now).0 }
        ensures name { result.1.now ≡ (texts.heading self.now).1 }
    {
        match self {
            Refused::BadLine => (1, "BadLine"),
            Refused::UnknownName => (2, "UnknownName"),
            Refused::NameTaken => (3, "NameTaken"),
            Refused::FunctionShape => (4, "FunctionShape"),
            Refused::BadDimension => (5, "BadDimension"),
            Refused::OutputIndex => (6, "OutputIndex"),
            Refused::BadInterval => (7, "BadInterval"),
            Refused::LowerBoundAlreadySet => (8, "LowerBoundAlreadySet"),
            Refused::UpperBoundAlreadySet => (9, "UpperBoundAlreadySet"),
            Refused::SetTypeMismatch => (10, "SetTypeMismatch"),
            Refused::DeleteNotAllowed => (11, "DeleteNotAllowed"),
            Refused::Full { .. } => (12, "Full"),
            Refused::NotAttached => (13, "NotAttached"),
            Refused::AlreadyAttached => (14, "AlreadyAttached"),
            Refused::TooLarge { .. } => (15, "TooLarge"),
            Refused::Unsupported { .. } => (16, "Unsupported"),
            Refused::Overflow { .. } => (17, "Overflow"),
            Refused::Limit { .. } => (18, "Limit"),
            Refused::NotEmpty => (19, "NotEmpty"),
            Refused::File { .. } => (20, "File"),
            Refused::Group { .. } => (21, "Group"),
            Refused::GroupOpen => (22, "GroupOpen"),
            Refused::NoGroup => (23, "NoGroup"),
        }
    }
}

/// The number, 1 to 8, and the name of a kind of a file's fault.
pub fn fault_heading(kind: FaultKind) -> (u8, &'static str)
    ensures number { result.0 ≡ (texts.fault_heading kind).0 }
    ensures name { result.1.now ≡ (texts.fault_heading kind).1 }
{
    match kind {
        FaultKind::NotJson => (1, "NotJson"),
        FaultKind::Shape => (2, "Shape"),
        FaultKind::Version => (3, "Version"),
        FaultKind::UnknownKind => (4, "UnknownKind"),
        FaultKind::BadNumber => (5, "BadNumber"),
        FaultKind::DuplicateName => (6, "DuplicateName"),
        FaultKind::UnknownName => (7, "UnknownName"),
        FaultKind::Dimension => (8, "Dimension"),
    }
}
