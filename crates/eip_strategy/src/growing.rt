// A message whose body still grows in place.
ghost use Rattle.std.specs.Prelude.{◌≡◌, IfOk};
ghost use Rattle.eip_strategy.specs.Growing.{grown};
ghost use Rattle.eip_strategy.specs.Answers.{Says, checked};

use crate::fault::StrategyFault;
use eip_exchange::{Headers, Message, Properties};
use eip_text::{NoMemory, Text};
use std::alloc::Global;

/// The most bytes that the body of a message has.
pub const LIMIT: usize = 65_536;

#[derive(Drop)]
pub struct Growing {
    pub body: String,
    pub headers: Headers,
    pub properties: Properties,
}

impl Growing {
    /// A message that is taken over, without a copy of a long body.
    pub fn of(alloc: Global, message: Message) -> Result<Growing, NoMemory>
        ensures { IfOk result (λ g. grown g ≡ message) }
    {
        let Message {
            body,
            headers,
            properties,
        } = message;
        match body.into_string(alloc) {
            Ok(body) => Ok(Growing {
                body,
                headers,
                properties,
            }),
            Err(_) => Err(NoMemory),
        }
    }

    /// A copy of a message.
    pub fn copy_of(alloc: Global, message: &Message) -> Result<Growing, NoMemory>
        ensures { IfOk result (λ g. grown g ≡ message.now) }
    {
        Ok(Growing {
            body: String::from_str(alloc, message.body.as_str())?,
            headers: message.headers.copy(alloc)?,
            properties: message.properties.copy(alloc)?,
        })
    }

    /// The message that it is.
    pub fn into_message(self) -> Message
        ensures { result ≡ grown self }
    {
        Message {
            body: Text::of(self.body),
            headers: self.headers,
            properties: self.properties,
        }
    }

    /// The same, or `TooLong` where the body has more bytes than so many.
    pub fn within(self, limit: usize) -> Result<Growing, StrategyFault>
        ensures { Says grown result (checked limit (grown self)) }
    {
        if self.body.len() <= limit {
            Ok(self)
        } else {
            Err(StrategyFault::TooLong)
        }
    }
}
