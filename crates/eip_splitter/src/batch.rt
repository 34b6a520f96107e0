ghost use Rattle.std.specs.Prelude.{◌≡◌, ◌<◌, Ok, Some, length, IfOk, IfErr};
ghost use Rattle.eip_resequence.specs.Unpacking.{unpacked};
ghost use Rattle.eip_splitter.specs.Batches as spec;
ghost use Rattle.eip_splitter.specs.Faults.{IsFault};

use crate::fault::SplitFault;
use crate::held::{headers_of, properties_of};
use crate::keys::with_keys;
use crate::numbered::{mark, within_limit};
use eip_exchange::{Key, Message};
use eip_resequence::{PackFault, Packed, ordered, unpack};
use eip_text::{NoMemory, Text};
use std::alloc::Global;

/// The messages of a packed batch as parts (Camel manual, *Resequence EIP*, batch resequencing), in the
/// order of their keys; those of equal keys stay in the order in which they were packed. Each has its own
/// headers and properties, and then the three properties that `parts` sets.
///
/// `NotArray` exactly where the body isn't packed, or where a message's headers or properties are no list
/// that `Headers` or `Properties` can hold; else `TooManyParts` exactly where there are more than 10,000
/// messages, with their number.
#[tactic(auto, unfolding(crate::specs::Batches::batch_parts))]
pub fn batch_parts(alloc: Global, message: &Message, key: &Key) -> Result<Vec<Message>, SplitFault>
    ensures parts { IfOk result (λ ps. spec.batch_parts key.now message.now ≡ Ok ps.items) }
    ensures fault { IfErr result (λ e. IsFault e (spec.batch_parts key.now message.now)) }
{
    let list = unpacked(alloc, &message.body)?;
    let messages = in_key_order(alloc, key, list)?;
    within_limit(messages.len())?;
    Ok(placed(alloc, messages)?)
}

/// The messages that a body is packed of.
fn unpacked(alloc: Global, body: &Text) -> Result<Vec<Packed>, SplitFault>
    ensures list { IfOk result (λ v. unpacked body.now ≡ Some v.items) }
    ensures fault { IfErr result (λ e. spec.IsNone e (unpacked body.now)) }
{
    match unpack(alloc, body) {
        Ok(list) => Ok(list),
        Err(PackFault::NotPacked) => Err(SplitFault::NotArray),
        Err(PackFault::NoMemory) => Err(SplitFault::NoMemory),
    }
}

fn in_key_order(alloc: Global, key: &Key, list: Vec<Packed>) -> Result<Vec<Message>, SplitFault>
    ensures messages { IfOk result (λ v. spec.messages_of (spec.in_key_order key.now list.items) ≡ Some v.items) }
    ensures fault { IfErr result (λ e. spec.IsNone e (spec.messages_of (spec.in_key_order key.now list.items))) }
{
    let arrivals = with_keys(alloc, key, list)?;
    messages_of(alloc, ordered(alloc, arrivals)?)
}

fn messages_of(alloc: Global, list: Vec<Packed>) -> Result<Vec<Message>, SplitFault>
    ensures messages { IfOk result (λ v. spec.messages_of list.items ≡ Some v.items) }
    ensures fault { IfErr result (λ e. spec.IsNone e (spec.messages_of list.items)) }
{
    let mut messages = Vec::with_capacity(alloc, list.len())?;
    for packed in list {
        messages.push(message_of(alloc, packed)?)?;
    }
    Ok(messages)
}

fn message_of(alloc: Global, packed: Packed) -> Result<Message, SplitFault>
    ensures message { IfOk result (λ m. spec.message_of packed ≡ Some m) }
    ensures fault { IfErr result (λ e. spec.IsNone e (spec.message_of packed)) }
{
    let Packed {
        body,
        headers,
        properties,
    } = packed;
    let headers = headers_of(alloc, headers.into_vec())?;
    let properties = properties_of(alloc, properties.into_vec())?;
    Ok(Message {
        body,
        headers,
        properties,
    })
}

/// The messages, each with its place among them.
fn placed(alloc: Global, messages: Vec<Message>) -> Result<Vec<Message>, NoMemory>
    ensures { IfOk result (λ ps. ps.items ≡ spec.placed_from (length messages.items) 0 messages.items) }
{
    let size = messages.len();
    let mut parts = Vec::with_capacity(alloc, size)?;
    for message in messages {
        let index = parts.len();
        parts.push(placed_one(alloc, message, index, size)?)?;
    }
    Ok(parts)
}

fn placed_one(
    alloc: Global,
    message: Message,
    index: usize,
    size: usize,
) -> Result<Message, NoMemory>
    requires { index < size }
    ensures { IfOk result (λ p. p ≡ spec.placed_one size index message) }
{
    let Message {
        body,
        headers,
        mut properties,
    } = message;
    mark(alloc, &mut properties, index, size)?;
    Ok(Message {
        body,
        headers,
        properties,
    })
}
