ghost use Rattle.std.specs.Prelude.{◌≡◌};
ghost use Rattle.eip_dump.specs.declared.fault.Stop.TheVariants.{Bad, Memory};

use eip_exchange::HeaderFault;
use eip_text::NoMemory;
use std::alloc::{AllocError, AllocFailed};
use thiserror::Error;

/// Why bytes are no dump, or no line of one.
#[derive(Clone, Copy, Debug, PartialEq, Eq, Error)]
pub enum DumpFault {
    /// The first line that may not stand where it stands, or that is missing, counted from 1.
    #[error("bad line {0} of the dump")]
    BadDump(u64),
    #[error("out of memory")]
    NoMemory,
}

/// Why reading a line stopped.
#[derive(Clone, Copy, Debug, PartialEq, Eq)]
pub enum Stop {
    /// Memory was wanting.
    Memory,
    /// The line is that of no entry.
    Bad,
}

impl From<NoMemory> for Stop {
    ghost from_gives = { λ _ e. e ≡ Memory };

    fn from(_refused: NoMemory) -> Stop {
        Stop::Memory
    }
}

impl From<AllocError> for Stop {
    ghost from_gives = { λ _ e. e ≡ Memory };

    fn from(_refused: AllocError) -> Stop {
        Stop::Memory
    }
}

impl<T: Drop> From<AllocFailed<T>> for Stop {
    ghost from_gives = { λ _ e. e ≡ Memory };

    fn from(_refused: AllocFailed<T>) -> Stop {
        Stop::Memory
    }
}

impl From<NoMemory> for DumpFault {
    ghost use Rattle.std.specs.Prelude.{◌≡◌};
    ghost use Rattle.eip_dump.specs.declared.fault.DumpFault.TheVariants.{NoMemory};

    ghost from_gives = { λ _ e. e ≡ NoMemory };

    fn from(_refused: NoMemory) -> DumpFault {
        DumpFault::NoMemory
    }
}
