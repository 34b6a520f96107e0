ghost use Rattle.std.specs.Prelude.{[]};
ghost use Rattle.eip_dump.specs.Reading as spec;
ghost use Rattle.eip_dump.specs.Reading.{Gives};

use crate::fault::Stop;
use crate::number_reader::{behind, number_at};
use crate::text_reader::phrase_at;
use eip_exchange::{End, Ended, Fault, HeaderFault, Headers, Message, Properties};
use eip_text::{NoMemory, Text};
use std::alloc::Global;

/// A name and its value, and what stands behind them.
#[tactic(auto, unfolding(crate::specs::Reading::pair_at))]
fn pair_at(alloc: Global, bytes: &[u8]) -> Result<(Text, Text, &[u8]), Stop>
    ensures { Gives (λ x. ((x.0, x.1), x.2.now)) result (spec.pair_at bytes.now) }
{
    let (name, behind_name) = phrase_at(alloc, bytes)?;
    let (value, rest) = phrase_at(alloc, behind_name)?;
    Ok((name, value, rest))
}

/// Sets one more header, where the limit on their number allows it.
fn set_header(headers: &mut Headers, name: Text, value: Text) -> Result<(), Stop>
    ensures { Gives (λ _. headers.new) result (spec.set_header (name, value) headers.old) }
{
    match headers.set(name, value) {
        Ok(()) => Ok(()),
        Err(HeaderFault::TooManyHeaders) => Err(Stop::Bad),
        Err(HeaderFault::NoMemory) => Err(Stop::Memory),
    }
}

/// So many headers, and what stands behind them.
fn headers_from(alloc: Global, count: u64, bytes: &[u8]) -> Result<(Headers, &[u8]), Stop>
    ensures { Gives (λ x. (x.0, x.1.now)) result (spec.headers_from count [] bytes.now) }
{
    let mut headers = Headers::new(alloc);
    let mut left = count;
    let mut rest = bytes;
    while left > 0 {
        let (name, value, more) = pair_at(alloc, rest)?;
        set_header(&mut headers, name, value)?;
        rest = more;
        left -= 1;
    }
    Ok((headers, rest))
}

/// So many properties, and what stands behind them.
fn properties_from(alloc: Global, count: u64, bytes: &[u8]) -> Result<(Properties, &[u8]), Stop>
    ensures { Gives (λ x. (x.0, x.1.now)) result (spec.properties_from count [] bytes.now) }
{
    let mut properties = Properties::new(alloc);
    let mut left = count;
    let mut rest = bytes;
    while left > 0 {
        let (name, value, more) = pair_at(alloc, rest)?;
        properties.set(name, value)?;
        rest = more;
        left -= 1;
    }
    Ok((properties, rest))
}

/// How many headers there are, and the headers.
#[tactic(auto, unfolding(crate::specs::Reading::headers_at))]
fn headers_at(alloc: Global, bytes: &[u8]) -> Result<(Headers, &[u8]), Stop>
    ensures { Gives (λ x. (x.0, x.1.now)) result (spec.headers_at bytes.now) }
{
    let (count, rest) = number_at(bytes)?;
    headers_from(alloc, count, rest)
}

/// How many properties there are, and the properties.
#[tactic(auto, unfolding(crate::specs::Reading::properties_at))]
fn properties_at(alloc: Global, bytes: &[u8]) -> Result<(Properties, &[u8]), Stop>
    ensures { Gives (λ x. (x.0, x.1.now)) result (spec.properties_at bytes.now) }
{
    let (count, rest) = number_at(bytes)?;
    properties_from(alloc, count, rest)
}

/// A message, and what stands behind it.
#[tactic(auto, unfolding(crate::specs::Reading::message_at))]
pub fn message_at(alloc: Global, bytes: &[u8]) -> Result<(Message, &[u8]), Stop>
    ensures { Gives (λ x. (x.0, x.1.now)) result (spec.message_at bytes.now) }
{
    let (body, behind_body) = phrase_at(alloc, bytes)?;
    let (headers, behind_headers) = headers_at(alloc, behind_body)?;
    let (properties, rest) = properties_at(alloc, behind_headers)?;
    let message = Message {
        body,
        headers,
        properties,
    };
    Ok((message, rest))
}

/// A fault, and what stands behind it.
#[tactic(auto, unfolding(crate::specs::Reading::fault_at))]
pub fn fault_at(alloc: Global, bytes: &[u8]) -> Result<(Fault, &[u8]), Stop>
    ensures { Gives (λ x. (x.0, x.1.now)) result (spec.fault_at bytes.now) }
{
    let (kind, behind_kind) = phrase_at(alloc, bytes)?;
    let (text, rest) = phrase_at(alloc, behind_kind)?;
    Ok((Fault { kind, text }, rest))
}

/// How an exchange ended, and what stands behind it.
#[tactic(auto, unfolding(crate::specs::Reading::end_at))]
fn end_at(alloc: Global, bytes: &[u8]) -> Result<(End, &[u8]), Stop>
    ensures { Gives (λ x. (x.0, x.1.now)) result (spec.end_at bytes.now) }
{
    if let Some(rest) = behind(bytes, b" completed") {
        return Ok((End::Completed, rest));
    }
    if let Some(rest) = behind(bytes, b" handled") {
        return Ok((End::Handled, rest));
    }
    let Some(rest) = behind(bytes, b" failed") else {
        return Err(Stop::Bad);
    };
    let (fault, rest) = fault_at(alloc, rest)?;
    Ok((End::Failed(fault), rest))
}

/// How a part ended with its message, and what stands behind them.
#[tactic(auto, unfolding(crate::specs::Reading::ended_at))]
fn ended_at(alloc: Global, bytes: &[u8]) -> Result<(Ended, &[u8]), Stop>
    ensures { Gives (λ x. (x.0, x.1.now)) result (spec.ended_at bytes.now) }
{
    let (end, behind_end) = end_at(alloc, bytes)?;
    let (message, rest) = message_at(alloc, behind_end)?;
    Ok((Ended { end, message }, rest))
}

/// So many parts, and what stands behind them.
fn parts_from(alloc: Global, count: u64, bytes: &[u8]) -> Result<(Vec<Ended>, &[u8]), Stop>
    ensures { Gives (λ x. (x.0.items, x.1.now)) result (spec.parts_from count [] bytes.now) }
{
    let mut parts = Vec::new(alloc);
    let mut left = count;
    let mut rest = bytes;
    while left > 0 {
        let (part, more) = ended_at(alloc, rest)?;
        parts.push(part)?;
        rest = more;
        left -= 1;
    }
    Ok((parts, rest))
}

/// How many parts there are, and the parts.
#[tactic(auto, unfolding(crate::specs::Reading::parts_at))]
pub fn parts_at(alloc: Global, bytes: &[u8]) -> Result<(Vec<Ended>, &[u8]), Stop>
    ensures { Gives (λ x. (x.0.items, x.1.now)) result (spec.parts_at bytes.now) }
{
    let (count, rest) = number_at(bytes)?;
    parts_from(alloc, count, rest)
}
