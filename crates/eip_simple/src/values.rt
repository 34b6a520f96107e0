ghost use Rattle.std.specs.Prelude.{◌≡◌, ◌≤◌, ◌<◌, length, IfOk, IsErrOf};
ghost use Rattle.eip_simple.specs.Views.{seen};
ghost use Rattle.eip_simple.specs.Values.{template_value};

use crate::templates::joined;
use crate::view::View;
use eip_simple_read::Template;
use eip_text::{NoMemory, Text};
use std::alloc::{AllocError, Global};
use thiserror::Error;

/// How many bytes a value has at most.
pub const LIMIT: usize = 65_536;

/// Why a template has no value.
#[derive(Clone, Copy, Debug, PartialEq, Eq, Error)]
pub enum ValueFault {
    /// The value has more than 65,536 bytes.
    #[error("too long")]
    TooLong,
    #[error("out of memory")]
    NoMemory,
}

impl From<NoMemory> for ValueFault {
    ghost use Rattle.std.specs.Prelude.{◌≡◌};
    ghost use Rattle.eip_simple.specs.declared.values.ValueFault.TheVariants.{NoMemory};

    ghost from_gives = { λ _ e. e ≡ NoMemory };

    fn from(_refused: NoMemory) -> ValueFault {
        ValueFault::NoMemory
    }
}

impl From<AllocError> for ValueFault {
    ghost use Rattle.std.specs.Prelude.{◌≡◌};
    ghost use Rattle.eip_simple.specs.declared.values.ValueFault.TheVariants.{NoMemory};

    ghost from_gives = { λ _ e. e ≡ NoMemory };

    fn from(_refused: AllocError) -> ValueFault {
        ValueFault::NoMemory
    }
}

/// The value of a template: the texts of its parts, joined, with nothing for an absent one. `TooLong` exactly where it has
/// more than 65,536 bytes.
pub fn value(alloc: Global, template: &Template, view: &View) -> Result<Text, ValueFault>
    ensures value { IfOk result (λ t. t ≡ template_value template.now (seen view.now)) }
    ensures fits { IfOk result (λ t. length t ≤ 65536) }
    ensures too_long { IsErrOf result ValueFault.TooLong → 65536 < length (template_value template.now (seen view.now)) }
{
    joined(alloc, template, view, LIMIT)
}
