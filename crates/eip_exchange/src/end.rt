ghost use Rattle.std.specs.Prelude.{◌≡◌, IfOk};
ghost use Rattle.eip_exchange.specs.Ends.{ending_of};

use crate::message::Message;
use eip_text::{NoMemory, Text};
use std::alloc::Global;

/// What an exchange failed with: a kind, as `SendFailed`, and a text.
#[derive(Drop)]
pub struct Fault {
    pub kind: Text,
    pub text: Text,
}

impl Fault {
    /// A copy with the same kind and text.
    pub fn copy(&self) -> Result<Fault, NoMemory>
        ensures { IfOk result (λ f. f ≡ self.now) }
    {
        Ok(Fault {
            kind: self.kind.copy()?,
            text: self.text.copy()?,
        })
    }
}

/// How an exchange ends (Camel manual, error handling): its route ran to the end, a handler took its fault, or it failed.
#[derive(Drop)]
pub enum End {
    Completed,
    Handled,
    Failed(Fault),
}

/// An end without its fault.
#[derive(Clone, Copy, Debug, PartialEq, Eq)]
pub enum Ending {
    Completed,
    Handled,
    Failed,
}

impl End {
    /// A copy of the same end.
    pub fn copy(&self) -> Result<End, NoMemory>
        ensures { IfOk result (λ e. e ≡ self.now) }
    {
        match self {
            End::Completed => Ok(End::Completed),
            End::Handled => Ok(End::Handled),
            End::Failed(fault) => Ok(End::Failed(fault.copy()?)),
        }
    }

    /// The end without its fault.
    pub fn ending(&self) -> Ending
        ensures { result ≡ ending_of self.now }
    {
        match self {
            End::Completed => Ending::Completed,
            End::Handled => Ending::Handled,
            End::Failed(_) => Ending::Failed,
        }
    }
}

/// The end of an exchange with the message that it ended with.
#[derive(Drop)]
pub struct Ended {
    pub end: End,
    pub message: Message,
}

impl Ended {
    /// A copy of the same end and message.
    pub fn copy(&self, alloc: Global) -> Result<Ended, NoMemory>
        ensures { IfOk result (λ e. e ≡ self.now) }
    {
        Ok(Ended {
            end: self.end.copy()?,
            message: self.message.copy(alloc)?,
        })
    }
}
