ghost use Rattle.std.specs.Prelude.{◌≡◌, ◌<◌, Ok, length, nat_le, IfOk, OnOk};
ghost use Rattle.eip_exchange.specs.Pairs.{put_property};
ghost use Rattle.eip_splitter.specs.Parts as spec;

use crate::fault::SplitFault;
use eip_exchange::{Message, Properties};
use eip_text::{NoMemory, Text, decimal};
use std::alloc::Global;

/// How many parts there may be.
const LIMIT: usize = 10_000;

/// Refuses more parts than there may be.
pub fn within_limit(count: usize) -> Result<(), SplitFault>
    ensures { result ≡ spec.count_within_limit count }
{
    if count > LIMIT {
        return Err(SplitFault::TooManyParts(count));
    }
    Ok(())
}

/// The parts with these bodies, each with the headers and properties of the message and its place among them.
pub fn numbered(
    alloc: Global,
    message: &Message,
    bodies: Vec<Text>,
) -> Result<Vec<Message>, NoMemory>
    ensures { IfOk result (λ ps. ps.items ≡ spec.parts_from message.now (length bodies.items) 0 bodies.items) }
{
    let size = bodies.len();
    let mut parts = Vec::with_capacity(alloc, size)?;
    for body in bodies {
        let index = parts.len();
        parts.push(part(alloc, message, body, index, size)?)?;
    }
    Ok(parts)
}

fn part(
    alloc: Global,
    message: &Message,
    body: Text,
    index: usize,
    size: usize,
) -> Result<Message, NoMemory>
    requires { index < size }
    ensures { IfOk result (λ p. p ≡ spec.part message.now size index body) }
{
    let mut properties = message.properties.copy(alloc)?;
    mark(alloc, &mut properties, index, size)?;
    Ok(Message {
        body,
        headers: message.headers.copy(alloc)?,
        properties,
    })
}

/// Sets the three properties that say which of how many parts it is.
#[tactic(auto, unfolding(crate::specs::Parts::marked))]
pub fn mark(
    alloc: Global,
    properties: &mut Properties,
    index: usize,
    size: usize,
) -> Result<(), NoMemory>
    requires { index < size }
    ensures { OnOk result (properties.new ≡ spec.marked size index properties.old) }
{
    let complete = if index + 1 == size { "true" } else { "false" };
    set(
        alloc,
        properties,
        "CamelSplitIndex",
        decimal(alloc, index as u64)?,
    )?;
    set(
        alloc,
        properties,
        "CamelSplitSize",
        decimal(alloc, size as u64)?,
    )?;
    set(
        alloc,
        properties,
        "CamelSplitComplete",
        Text::of_str(alloc, complete)?,
    )
}

fn set(alloc: Global, properties: &mut Properties, name: &str, value: Text) -> Result<(), NoMemory>
    ensures { OnOk result (properties.new ≡ put_property name.now value properties.old) }
{
    properties.set(Text::of_str(alloc, name)?, value)
}
