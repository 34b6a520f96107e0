ghost use Rattle.std.specs.Prelude.{Result};
ghost use Rattle.eip_exchange.specs.Limits.{IsWithinLimits};
ghost use Rattle.eip_exchange.specs.declared.message.Message.{Message as AMessage};
ghost use Rattle.eip_processor.specs.declared.processor.ProcessFault.{ProcessFault as AFault};
ghost use Rattle.eip_processor.specs.Processed.{KeepsLimits, IsNamed};

use eip_exchange::{Fault, Message};

/// Why a processor answered no message.
#[derive(Drop)]
pub enum ProcessFault {
    /// The processor faults: the fault is the step's.
    Raised(Fault),
    /// There was no memory, and nothing was done.
    NoMemory,
}

/// What works on a message (Camel manual, *Processor*; Hohpe and Woolf, *Message Translator*). It is called through a
/// shared reference, by several threads at once.
pub trait Processor: Send + Sync + Drop {
    /// What it may answer a message.
    ghost relates: { Self → AMessage → Result AMessage AFault → Type 0 };

    /// The message in place of this one, or a fault, whose kind is a name. Of a message within the limits it makes
    /// none beyond them, and no longer text of a fault than a body may be.
    fn process(&self, message: &Message) -> Result<Message, ProcessFault>
        ensures related { relates self.now message.now result }
        ensures limits { IsWithinLimits message.now → KeepsLimits result }
        ensures named { IsNamed result };
}

/// A box of a processor is one: a call goes to the object inside.
impl Processor for Box<dyn Processor> {
    ghost relates = { λ b. (Processor-box b).relates b.value };

    fn process(&self, message: &Message) -> Result<Message, ProcessFault> {
        (**self).process(message)
    }
}
