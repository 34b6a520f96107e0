ghost use Rattle.std.specs.Prelude.{◌≡◌, [], IfOk};

use crate::headers::Headers;
use crate::properties::Properties;
use eip_text::{NoMemory, Text};
use std::alloc::Global;

/// A message (Hohpe and Woolf, *Message*): a body, headers and the properties of its exchange.
#[derive(Drop)]
pub struct Message {
    pub body: Text,
    pub headers: Headers,
    pub properties: Properties,
}

impl Message {
    /// Where its lists find memory.
    pub fn alloc(&self) -> Global {
        self.properties.alloc()
    }

    /// The message of a body, without headers and properties. It takes no memory.
    pub fn of_body(alloc: Global, body: Text) -> Message
        ensures { result ≡ record { body = body; headers = []; properties = [] } }
    {
        Message {
            body,
            headers: Headers::new(alloc),
            properties: Properties::new(alloc),
        }
    }

    /// A copy with the same body, headers and properties.
    pub fn copy(&self, alloc: Global) -> Result<Message, NoMemory>
        ensures { IfOk result (λ m. m ≡ self.now) }
    {
        Ok(Message {
            body: self.body.copy()?,
            headers: self.headers.copy(alloc)?,
            properties: self.properties.copy(alloc)?,
        })
    }
}
