use eip_text::{NoMemory, Series, Text};
use std::alloc::{AllocError, AllocFailed};
use thiserror::Error;

/// A message of a batch (Camel manual, *Resequence EIP*, batch resequencing): its body, and its headers and properties
/// as pairs of a name and a value, in their order.
#[derive(Drop)]
pub struct Packed {
    pub body: Text,
    pub headers: Series<(Text, Text)>,
    pub properties: Series<(Text, Text)>,
}

/// Why a text was not unpacked.
#[derive(Clone, Copy, Debug, PartialEq, Eq, Error)]
pub enum PackFault {
    /// No list of messages packs to the text.
    #[error("not packed")]
    NotPacked,
    #[error("out of memory")]
    NoMemory,
}

impl From<NoMemory> for PackFault {
    ghost use Rattle.std.specs.Prelude.{◌≡◌};
    ghost use Rattle.eip_resequence.specs.declared.packed.PackFault.TheVariants.{NoMemory};

    ghost from_gives = { λ _ e. e ≡ NoMemory };

    fn from(_refused: NoMemory) -> PackFault {
        PackFault::NoMemory
    }
}

impl From<AllocError> for PackFault {
    ghost use Rattle.std.specs.Prelude.{◌≡◌};
    ghost use Rattle.eip_resequence.specs.declared.packed.PackFault.TheVariants.{NoMemory};

    ghost from_gives = { λ _ e. e ≡ NoMemory };

    fn from(_refused: AllocError) -> PackFault {
        PackFault::NoMemory
    }
}

impl<T: Drop> From<AllocFailed<T>> for PackFault {
    ghost use Rattle.std.specs.Prelude.{◌≡◌};
    ghost use Rattle.eip_resequence.specs.declared.packed.PackFault.TheVariants.{NoMemory};

    ghost from_gives = { λ _ e. e ≡ NoMemory };

    fn from(_refused: AllocFailed<T>) -> PackFault {
        PackFault::NoMemory
    }
}
