//! Why a model isn't bridged.
ghost use Rattle.std.specs.Prelude.{◌≡◌};
ghost use Rattle.model_bridging.specs.declared.fault.PushFault.TheVariants as fault;

use aff_core::Address;
use item_core::Kind;
use lists::Memory;

/// Why a model isn't bridged.
#[derive(Clone, Copy, Debug, PartialEq, Eq)]
pub enum PushFault {
    /// The first of the user's items that has no tree is of this kind.
    Unsupported { kind: Kind },
    /// The address of the first of the user's items at which, itself or below it, a number doesn't
    /// fit.
    Overflow { at: Address },
    /// Memory ran out.
    Memory,
}

impl From<Memory> for PushFault {
    ghost from_gives = { λ _ result. result ≡ fault.Memory };

    fn from(_fault: Memory) -> PushFault {
        PushFault::Memory
    }
}
