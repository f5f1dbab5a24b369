//! Why a board isn't pivoted.
use ratio_core::{NumberFault, RatioFault};
use thiserror::Error;

/// A quotient, product or difference of a pivot passes 128 bits.
#[derive(Clone, Copy, Debug, PartialEq, Eq, Error)]
#[error("a number of the board passes 128 bits")]
pub struct BoardOverflow;

impl From<RatioFault> for BoardOverflow {
    fn from(_fault: RatioFault) -> BoardOverflow {
        BoardOverflow
    }
}

impl From<BoardOverflow> for NumberFault {
    ghost use Rattle.std.specs.Prelude.{◌≡◌};
    ghost use Rattle.ratio_core.specs.declared.fault.NumberFault.TheVariants as fault;

    ghost from_gives = { λ _ result. result ≡ fault.Overflow };

    fn from(_fault: BoardOverflow) -> NumberFault {
        NumberFault::Overflow
    }
}
