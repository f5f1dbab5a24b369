//! Why a set has no answer.
ghost use Rattle.std.specs.Prelude.{◌≡◌};
ghost use Rattle.ratio_core.specs.declared.fault.NumberFault.TheVariants as fault;

use ratio_core::NumberFault;
use thiserror::Error;

/// A sum or a product doesn't fit in the numbers that are kept.
#[derive(Clone, Copy, Debug, PartialEq, Eq, Error)]
#[error("a number of a set passes 128 bits")]
pub struct SetOverflow;

impl From<SetOverflow> for NumberFault {
    ghost from_gives = { λ _ result. result ≡ fault.Overflow };

    fn from(_fault: SetOverflow) -> NumberFault {
        NumberFault::Overflow
    }
}
