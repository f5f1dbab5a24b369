//! Why a line says nothing.
ghost use Rattle.std.specs.Prelude.{◌≡◌};

use ratio_core::Memory;
use thiserror::Error;

/// Why a line says nothing.
#[derive(Clone, Copy, Debug, PartialEq, Eq, Error)]
pub enum LineFault {
    /// The line isn't in the grammar.
    #[error("the line has none of the forms")]
    BadLine,
    /// The line is in the grammar, and a sum of its terms exceeds 128 bits.
    #[error("a sum of terms passes 128 bits")]
    Overflow,
    /// There was no memory left.
    #[error("out of memory")]
    Memory,
}

impl From<Memory> for LineFault {
    ghost use Rattle.script_core.specs.declared.fault.LineFault.TheVariants.{Memory};

    ghost from_gives = { λ _ fault. fault ≡ Memory };

    fn from(_memory: Memory) -> LineFault {
        LineFault::Memory
    }
}
