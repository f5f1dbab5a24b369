//! Why a call of the cache is refused.
ghost use Rattle.std.specs.Prelude.{◌≡◌};
ghost use Rattle.cache_layer.specs.Faults.{attach_fault, bridge_fault, edit_fault, form_fault, group_fault, group_fault_of, read_fault, solve_fault};

use item_core::Kind;
use model_load::Unmade;
use ratio_core::NumberFault;
use report_core::Place;
use simplex_core::SolveFault;
use std_form::FormFault;
use user_model::{ApplyFault, Refusal};

/// Why an edit, many edits or a table isn't taken. The model and the table are as before.
#[derive(Debug, Drop)]
pub enum EditFault {
    Refused(Refusal),
    /// The first of the user's items without a tree is of this kind.
    Unsupported { kind: Kind },
    /// Where the first number of the bridging doesn't fit.
    Overflow { place: Place },
    /// Memory ran out, and no solver is attached.
    Memory,
}

/// Why a group of edits isn't made. The model and the table are as before.
#[derive(Debug, Drop)]
pub enum GroupFault {
    /// The first of the edits that is refused, numbered from 1.
    Refused { index: u64, refusal: Refusal },
    /// After all edits, the first of the user's items without a tree is of this kind.
    Unsupported { kind: Kind },
    /// Where, after all edits, the first number of the bridging doesn't fit.
    Overflow { place: Place },
    /// Memory ran out, and no solver is attached.
    Memory,
}

/// Why no solver is attached.
#[derive(Debug, Drop)]
pub enum AttachFault {
    AlreadyAttached,
    /// The first of the user's items without a tree is of this kind.
    Unsupported { kind: Kind },
    /// Where the first number of the bridging doesn't fit.
    Overflow { place: Place },
    Memory,
}

/// No solver is attached.
#[derive(Clone, Copy, Debug, PartialEq, Eq)]
pub struct NotAttached;

/// Why an optimise gives no certificate.
#[derive(Debug, Drop)]
pub enum OptFault {
    NotAttached,
    /// The number of cells that the equality form would have, which is above 16,777,216, capped at
    /// `u64::MAX`.
    TooLarge { cells: u64 },
    /// Where the first number doesn't fit.
    Overflow { place: Place },
    /// This number of pivots leads to no answer.
    Limit { pivots: u64 },
    Memory,
}

/// Why a model isn't bridged, in the user's names.
#[derive(Debug, Drop)]
pub(crate) enum BridgeFault {
    Unsupported { kind: Kind },
    Overflow { place: Place },
    Memory,
}

impl From<Unmade> for GroupFault {
    ghost from_gives = { λ fault result. result ≡ group_fault_of fault };

    fn from(fault: Unmade) -> GroupFault {
        match fault {
            Unmade::Refused { index, refusal } => GroupFault::Refused { index, refusal },
            Unmade::Memory => GroupFault::Memory,
        }
    }
}

impl From<BridgeFault> for GroupFault {
    ghost from_gives = { λ fault result. result ≡ group_fault fault };

    fn from(fault: BridgeFault) -> GroupFault {
        match fault {
            BridgeFault::Unsupported { kind } => GroupFault::Unsupported { kind },
            BridgeFault::Overflow { place } => GroupFault::Overflow { place },
            BridgeFault::Memory => GroupFault::Memory,
        }
    }
}

impl From<ApplyFault> for EditFault {
    ghost from_gives = { λ fault result. result ≡ edit_fault fault };

    fn from(fault: ApplyFault) -> EditFault {
        match fault {
            ApplyFault::Refused(refusal) => EditFault::Refused(refusal),
            ApplyFault::Memory => EditFault::Memory,
        }
    }
}

impl From<BridgeFault> for EditFault {
    ghost from_gives = { λ fault result. result ≡ bridge_fault fault };

    fn from(fault: BridgeFault) -> EditFault {
        match fault {
            BridgeFault::Unsupported { kind } => EditFault::Unsupported { kind },
            BridgeFault::Overflow { place } => EditFault::Overflow { place },
            BridgeFault::Memory => EditFault::Memory,
        }
    }
}

impl From<BridgeFault> for AttachFault {
    ghost from_gives = { λ fault result. result ≡ attach_fault fault };

    fn from(fault: BridgeFault) -> AttachFault {
        match fault {
            BridgeFault::Unsupported { kind } => AttachFault::Unsupported { kind },
            BridgeFault::Overflow { place } => AttachFault::Overflow { place },
            BridgeFault::Memory => AttachFault::Memory,
        }
    }
}

impl From<FormFault> for OptFault {
    ghost from_gives = { λ fault result. result ≡ form_fault fault };

    fn from(fault: FormFault) -> OptFault {
        match fault {
            FormFault::TooLarge { cells } => OptFault::TooLarge { cells },
            FormFault::Overflow => OptFault::Overflow {
                place: Place::Solver,
            },
            FormFault::Memory => OptFault::Memory,
        }
    }
}

impl From<SolveFault> for OptFault {
    ghost from_gives = { λ fault result. result ≡ solve_fault fault };

    fn from(fault: SolveFault) -> OptFault {
        match fault {
            SolveFault::Limit { pivots, .. } => OptFault::Limit { pivots },
            SolveFault::Overflow { .. } => OptFault::Overflow {
                place: Place::Solver,
            },
            SolveFault::Memory => OptFault::Memory,
        }
    }
}

impl From<NumberFault> for OptFault {
    ghost from_gives = { λ fault result. result ≡ read_fault fault };

    fn from(fault: NumberFault) -> OptFault {
        match fault {
            NumberFault::Overflow => OptFault::Overflow {
                place: Place::Solver,
            },
            NumberFault::Memory => OptFault::Memory,
        }
    }
}
