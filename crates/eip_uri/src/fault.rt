use eip_text::{NoMemory, Text};
use std::alloc::{AllocError, AllocFailed};
use thiserror::Error;

/// Why a text and its parameters are no endpoint URI.
#[derive(Debug, Drop, Error)]
pub enum UriFault {
    /// What stands before the first colon is no scheme.
    #[error("unknown scheme")]
    UnknownScheme,
    /// There is no colon, at 0, or what stands behind it, at this byte, isn't of the scheme's form.
    #[error("bad URI at byte {0}")]
    BadUri(usize),
    /// The scheme has no option of this name.
    #[error("unknown option")]
    UnknownOption(Text),
    /// The option of this name has a bad value, or none.
    #[error("bad option")]
    BadOption(Text),
    /// The option of this name is given twice.
    #[error("option given twice")]
    DoubleOption(Text),
    #[error("out of memory")]
    NoMemory,
}

impl From<NoMemory> for UriFault {
    ghost use Rattle.std.specs.Prelude.{◌≡◌};
    ghost use Rattle.eip_uri.specs.declared.fault.UriFault.TheVariants.{NoMemory};

    ghost from_gives = { λ _ e. e ≡ NoMemory };

    fn from(_refused: NoMemory) -> UriFault {
        UriFault::NoMemory
    }
}

impl From<AllocError> for UriFault {
    ghost use Rattle.std.specs.Prelude.{◌≡◌};
    ghost use Rattle.eip_uri.specs.declared.fault.UriFault.TheVariants.{NoMemory};

    ghost from_gives = { λ _ e. e ≡ NoMemory };

    fn from(_refused: AllocError) -> UriFault {
        UriFault::NoMemory
    }
}

impl<T: Drop> From<AllocFailed<T>> for UriFault {
    ghost use Rattle.std.specs.Prelude.{◌≡◌};
    ghost use Rattle.eip_uri.specs.declared.fault.UriFault.TheVariants.{NoMemory};

    ghost from_gives = { λ _ e. e ≡ NoMemory };

    fn from(_refused: AllocFailed<T>) -> UriFault {
        UriFault::NoMemory
    }
}
