use eip_text::NoMemory;
use std::alloc::{AllocError, AllocFailed};
use thiserror::Error;

/// Why messages were not taken in one.
#[derive(Clone, Copy, Debug, PartialEq, Eq, Error)]
pub enum StrategyFault {
    /// The body of the result would be longer than it may be.
    #[error("too long")]
    TooLong,
    /// A body that is to be summed is no whole number of 64 bits.
    #[error("not a number")]
    NotNumber,
    /// The sum has more than 64 bits.
    #[error("sum too large")]
    SumTooLarge,
    #[error("out of memory")]
    NoMemory,
}

impl From<NoMemory> for StrategyFault {
    ghost use Rattle.std.specs.Prelude.{◌≡◌};
    ghost use Rattle.eip_strategy.specs.declared.fault.StrategyFault.TheVariants.{NoMemory};

    ghost from_gives = { λ _ e. e ≡ NoMemory };

    fn from(_refused: NoMemory) -> StrategyFault {
        StrategyFault::NoMemory
    }
}

impl From<AllocError> for StrategyFault {
    ghost use Rattle.std.specs.Prelude.{◌≡◌};
    ghost use Rattle.eip_strategy.specs.declared.fault.StrategyFault.TheVariants.{NoMemory};

    ghost from_gives = { λ _ e. e ≡ NoMemory };

    fn from(_refused: AllocError) -> StrategyFault {
        StrategyFault::NoMemory
    }
}

impl<T: Drop> From<AllocFailed<T>> for StrategyFault {
    ghost use Rattle.std.specs.Prelude.{◌≡◌};
    ghost use Rattle.eip_strategy.specs.declared.fault.StrategyFault.TheVariants.{NoMemory};

    ghost from_gives = { λ _ e. e ≡ NoMemory };

    fn from(_refused: AllocFailed<T>) -> StrategyFault {
        StrategyFault::NoMemory
    }
}
