use eip_text::NoMemory;
use std::alloc::{AllocError, AllocFailed};
use thiserror::Error;

/// Why a text is no list of recipients.
#[derive(Clone, Copy, Debug, PartialEq, Eq, Error)]
pub enum RecipientFault {
    /// There are so many items, which is more than 10,000.
    #[error("too many recipients: {0}")]
    TooManyParts(usize),
    /// The item at this place, from 0 among those that are not empty, is no endpoint that a message may
    /// be sent to.
    #[error("bad recipient at {0}")]
    BadRecipient(usize),
    #[error("out of memory")]
    NoMemory,
}

impl From<NoMemory> for RecipientFault {
    ghost use Rattle.std.specs.Prelude.{◌≡◌};
    ghost use Rattle.eip_router.specs.declared.fault.RecipientFault.TheVariants.{NoMemory};

    ghost from_gives = { λ _ e. e ≡ NoMemory };

    fn from(_refused: NoMemory) -> RecipientFault {
        RecipientFault::NoMemory
    }
}

impl From<AllocError> for RecipientFault {
    ghost use Rattle.std.specs.Prelude.{◌≡◌};
    ghost use Rattle.eip_router.specs.declared.fault.RecipientFault.TheVariants.{NoMemory};

    ghost from_gives = { λ _ e. e ≡ NoMemory };

    fn from(_refused: AllocError) -> RecipientFault {
        RecipientFault::NoMemory
    }
}

impl<T: Drop> From<AllocFailed<T>> for RecipientFault {
    ghost use Rattle.std.specs.Prelude.{◌≡◌};
    ghost use Rattle.eip_router.specs.declared.fault.RecipientFault.TheVariants.{NoMemory};

    ghost from_gives = { λ _ e. e ≡ NoMemory };

    fn from(_refused: AllocFailed<T>) -> RecipientFault {
        RecipientFault::NoMemory
    }
}
