ghost use Rattle.std.specs.Prelude.{◌≡◌, IfOk, Ok, Err};
ghost use Rattle.eip_samples.specs.Samples.{field_of, answer_of, Answers};
ghost use Rattle.eip_exchange.specs.Limits.{IsWithinLimits};

use eip_exchange::{Fault, HeaderFault, Message};
use eip_processor::{ProcessFault, Processor};
use eip_text::cuts::cut;
use eip_text::{NoMemory, Text};
use std::alloc::Global;
use std::marker::Model;

/// The header that a `Field` sets, and the text of its fault.
const FIELD: &str = "field";

/// What a shipped processor does (Hohpe and Woolf, *Message Translator* and *Content Enricher*).
#[derive(Clone, Copy, Debug, PartialEq, Eq)]
pub enum Sample {
    /// Answers its message.
    Keep,
    /// Sets the header `field` to the body before its first comma, or to the whole body where it has none (RFC 4180, the
    /// first field of a record without quotes). It raises `TooManyHeaders` with the text `field` exactly where that
    /// would be a header too many.
    Field,
    /// Raises `Refused`, whose text is the body.
    Refuse,
}

/// A shipped processor with the memory that its answers take. Contracts see it as what it does.
#[derive(Drop)]
pub struct SampleProcessor {
    sample: Sample,
    alloc: Global,
}

impl Model for SampleProcessor {
    ghost use Rattle.eip_samples.specs.declared.sample.Sample.{Sample as ASample};

    ghost Value = { ASample };

    ghost view = { λ p. p.sample };
}

impl SampleProcessor {
    /// The processor that does this. It takes no memory.
    pub fn new(alloc: Global, sample: Sample) -> SampleProcessor
        ensures { result ≡ sample }
    {
        SampleProcessor { sample, alloc }
    }

    /// The answer to a message, or the fault that it raises.
    fn answer(&self, message: &Message) -> Result<Result<Message, Fault>, NoMemory>
        ensures { IfOk result (λ r. r ≡ answer_of self.now message.now) }
    {
        let alloc = self.alloc;
        match self.sample {
            Sample::Keep => Ok(Ok(message.copy(alloc)?)),
            Sample::Field => with_field(alloc, message),
            Sample::Refuse => Ok(Err(Fault {
                kind: Text::of_str(alloc, "Refused")?,
                text: message.body.copy()?,
            })),
        }
    }
}

impl Processor for SampleProcessor {
    ghost use Rattle.eip_samples.specs.Samples.{Answers};

    ghost relates = { Answers };

    fn process(&self, message: &Message) -> Result<Message, ProcessFault> {
        match self.answer(message) {
            Ok(Ok(answer)) => Ok(answer),
            Ok(Err(fault)) => Err(ProcessFault::Raised(fault)),
            Err(NoMemory) => Err(ProcessFault::NoMemory),
        }
    }
}

/// The message with the header `field`, or the fault where that is a header too many.
fn with_field(alloc: Global, message: &Message) -> Result<Result<Message, Fault>, NoMemory>
    ensures { IfOk result (λ r. r ≡ answer_of Sample.Field message.now) }
{
    let mut answer = message.copy(alloc)?;
    let value = first_field(alloc, &message.body)?;
    match answer.headers.set(Text::of_str(alloc, FIELD)?, value) {
        Ok(()) => Ok(Ok(answer)),
        Err(HeaderFault::TooManyHeaders) => Ok(Err(Fault {
            kind: Text::of_str(alloc, "TooManyHeaders")?,
            text: Text::of_str(alloc, FIELD)?,
        })),
        Err(HeaderFault::NoMemory) => Err(NoMemory),
    }
}

/// The body before its first comma, or the whole body.
fn first_field(alloc: Global, body: &Text) -> Result<Text, NoMemory>
    ensures { IfOk result (λ t. t ≡ field_of body.now) }
{
    match cut(body.as_str(), ',') {
        Some((front, _)) => Text::of_str(alloc, front),
        None => body.copy(),
    }
}
