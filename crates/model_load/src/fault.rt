//! Why not all of some edits are made.
ghost use Rattle.std.specs.Prelude.{◌≡◌, ◌<◌, ◌^◌, ◌-◌};
ghost use Rattle.model_load.specs.Loads.{apply_fault, unmade_behind};

use user_model::{ApplyFault, Refusal};

/// Why not all of some edits are made.
#[derive(Clone, Copy, Debug)]
pub enum Unmade {
    /// The first of them that is refused, numbered from 1.
    Refused { index: u64, refusal: Refusal },
    /// Memory ran out.
    Memory,
}

impl Unmade {
    /// The fault of the edit behind this number of edits.
    pub fn behind(made: usize, fault: ApplyFault) -> Unmade
        requires { made < 2 ^ 64 - 1 }
        ensures { result ≡ unmade_behind made fault }
    {
        match fault {
            ApplyFault::Refused(refusal) => Unmade::Refused {
                index: made as u64 + 1,
                refusal,
            },
            ApplyFault::Memory => Unmade::Memory,
        }
    }
}

impl From<Unmade> for ApplyFault {
    ghost from_gives = { λ fault result. result ≡ apply_fault fault };

    fn from(fault: Unmade) -> ApplyFault {
        match fault {
            Unmade::Refused { refusal, .. } => ApplyFault::Refused(refusal),
            Unmade::Memory => ApplyFault::Memory,
        }
    }
}
