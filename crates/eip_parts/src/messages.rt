ghost use Rattle.std.specs.Prelude.{◌≡◌, true, OnOk};
ghost use Rattle.eip_exchange.specs.Headers.{is_redelivery};
ghost use Rattle.eip_meaning.specs.Values.{with_header, with_property, with_content, duplicate_message, redelivered, caught_message};

use eip_exchange::{Fault, HeaderFault, Message};
use eip_text::{NoMemory, Text, decimal};
use std::alloc::Global;

/// A message takes the body and headers of another, and keeps its properties.
pub fn set_content(message: &mut Message, new: Message)
    ensures { message.new ≡ with_content message.old new }
{
    let Message { body, headers, .. } = new;
    message.body = body;
    message.headers = headers;
}

fn set_property(
    alloc: Global,
    message: &mut Message,
    name: &str,
    value: Text,
) -> Result<(), NoMemory>
    ensures { OnOk result (message.new ≡ with_property message.old name.now value) }
{
    message.properties.set(Text::of_str(alloc, name)?, value)?;
    Ok(())
}

/// Marks the message of an exchange whose key was met before (Camel manual, *Idempotent Consumer EIP*).
pub fn mark_duplicate(alloc: Global, message: &mut Message) -> Result<(), NoMemory>
    ensures { OnOk result (message.new ≡ duplicate_message message.old) }
{
    let value = Text::of_str(alloc, "true")?;
    set_property(alloc, message, "CamelDuplicateMessage", value)
}

/// Tells the fault that has no attempt left in the message of its exchange (Camel manual, *Exception Clause*).
pub fn set_caught(alloc: Global, message: &mut Message, fault: &Fault) -> Result<(), NoMemory>
    ensures { OnOk result (message.new ≡ caught_message message.old fault.now) }
{
    let text = fault.text.copy()?;
    set_property(alloc, message, "CamelExceptionCaught", text)
}

/// Makes a message that of the n-th try of a step, from 1 (Camel manual, *Redelivery*).
#[tactic(auto, unfolding(eip_exchange::specs::Headers::is_redelivery))]
pub fn mark_redelivered(alloc: Global, message: &mut Message, number: u32) -> Result<(), NoMemory>
    ensures { OnOk result (message.new ≡ redelivered message.old number) }
{
    if number <= 1 {
        return Ok(());
    }
    let told = Text::of_str(alloc, "true")?;
    set_header(alloc, message, "CamelRedelivered", told)?;
    let count = decimal(alloc, u64::from(number - 1))?;
    set_header(alloc, message, "CamelRedeliveryCounter", count)
}

/// Sets one of the two headers of redelivery, which no limit counts.
fn set_header(alloc: Global, message: &mut Message, name: &str, value: Text) -> Result<(), NoMemory>
    requires { is_redelivery name.now ≡ true }
    ensures { OnOk result (message.new ≡ with_header message.old name.now value) }
{
    match message.headers.set(Text::of_str(alloc, name)?, value) {
        Ok(()) => Ok(()),
        Err(HeaderFault::TooManyHeaders) => unreachable!(),
        Err(HeaderFault::NoMemory) => Err(NoMemory),
    }
}
