ghost use Rattle.std.specs.Prelude.{◌≡◌, IfOk};
ghost use Rattle.eip_exchange.specs.declared.message.Message.{Message as AMessage};
ghost use Rattle.eip_progress.specs.declared.tried.Tried.TheVariants.{Faults as faulted};
ghost use Rattle.eip_progress.specs.Tries.{asked};
ghost use Rattle.eip_parts.specs.Effects.{tried_of};

use eip_exchange::Fault;
use eip_frames::Request;
use eip_progress::{Asking, Progress};
use eip_text::{Boxed, NoMemory};
use std::alloc::Global;

/// What one try of a step has done, beside what it did to the message where that lies.
#[derive(Drop)]
pub enum Effect {
    /// The message goes on.
    Goes,
    /// The step faults on it; the flag says that the step may be tried again.
    Faults(Boxed<Fault>, bool),
    /// The step asks, and the message waits.
    Asks(Boxed<Asking>),
    /// A nested block runs on it.
    Enters(u32),
    /// The block of a called route runs on it.
    Calls(u32),
}

impl Effect {
    /// The step asks this, with parts from this index on.
    pub fn asking(
        alloc: Global,
        progress: Progress,
        request: Request,
        index: u32,
    ) -> Result<Effect, NoMemory>
        ensures { IfOk result (λ e. (m : AMessage) → tried_of e m ≡ asked progress request index m) }
    {
        let asking = Asking {
            progress,
            request,
            index,
        };
        Ok(Effect::Asks(Boxed::of(alloc, asking)?))
    }

    /// The step faults so.
    pub fn faulting(alloc: Global, fault: Fault, again: bool) -> Result<Effect, NoMemory>
        ensures { IfOk result (λ e. (m : AMessage) → tried_of e m ≡ faulted fault again m) }
    {
        Ok(Effect::Faults(Boxed::of(alloc, fault)?, again))
    }
}
