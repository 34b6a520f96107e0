ghost use Rattle.std.specs.Prelude.{◌≡◌};
ghost use Rattle.eip_simple_read.specs.Meaning.{placed_stop};
ghost use Rattle.eip_simple_read.specs.declared.fault.Stop.TheVariants.{Memory};

use crate::pattern::PatternFault;
use eip_text::NoMemory;
use std::alloc::{AllocError, AllocFailed};
use thiserror::Error;

/// Why a text is no template or no predicate: the first fault from the left, with its offset in bytes.
#[derive(Clone, Copy, Debug, PartialEq, Eq, Error)]
pub enum SimpleFault {
    /// No side, operator or end can be read here, or a brace or quote that opens here isn't closed.
    #[error("BadSimple {0}")]
    BadSimple(usize),
    /// The `${` here stands round no function.
    #[error("UnknownFunction {0}")]
    UnknownFunction(usize),
    /// The quoted text here, or that text enclosed to match whole texts, is no pattern.
    #[error("BadPattern {0}")]
    BadPattern(usize),
    /// The pattern in the quotes here was refused for its size.
    #[error("PatternTooLarge {0}")]
    PatternTooLarge(usize),
    #[error("out of memory")]
    NoMemory,
}

/// Why reading stopped, with the number of bytes from there to the end.
#[derive(Clone, Copy, Debug, PartialEq, Eq)]
pub enum Stop {
    Memory,
    Bad(usize),
    Unknown(usize),
    Pattern(usize, PatternFault),
}

impl From<NoMemory> for Stop {
    ghost from_gives = { λ _ e. e ≡ Memory };

    fn from(_refused: NoMemory) -> Stop {
        Stop::Memory
    }
}

impl From<AllocError> for Stop {
    ghost from_gives = { λ _ e. e ≡ Memory };

    fn from(_refused: AllocError) -> Stop {
        Stop::Memory
    }
}

impl<T: Drop> From<AllocFailed<T>> for Stop {
    ghost from_gives = { λ _ e. e ≡ Memory };

    fn from(_refused: AllocFailed<T>) -> Stop {
        Stop::Memory
    }
}

impl Stop {
    /// The fault of a text of this length, by its offset.
    pub fn fault(self, length: usize) -> SimpleFault
        ensures { result ≡ placed_stop length self }
    {
        match self {
            Stop::Memory => SimpleFault::NoMemory,
            Stop::Bad(left) => SimpleFault::BadSimple(length.saturating_sub(left)),
            Stop::Unknown(left) => SimpleFault::UnknownFunction(length.saturating_sub(left)),
            Stop::Pattern(left, PatternFault::Bad) => {
                SimpleFault::BadPattern(length.saturating_sub(left))
            }
            Stop::Pattern(left, PatternFault::TooLarge) => {
                SimpleFault::PatternTooLarge(length.saturating_sub(left))
            }
            Stop::Pattern(_, PatternFault::NoMemory) => SimpleFault::NoMemory,
        }
    }
}
