ghost use Rattle.std.specs.Prelude.{IfOk};
ghost use Rattle.eip_dump.specs.Dump.{ReadsEntry};
ghost use Rattle.eip_dump.specs.Kept.{IsEntry};
ghost use Rattle.eip_dump.specs.Reading as spec;
ghost use Rattle.eip_dump.specs.Reading.{Gives};

use crate::answer_reader::answer_at;
use crate::entry_printer::print_entry;
use crate::fault::{DumpFault, Stop};
use crate::message_reader::message_at;
use crate::number_reader::{behind, digits, number_at, small, small_at};
use crate::text_reader::phrase_at;
use eip_ledger::{Entry, Kind, Refused};
use eip_text::Boxed;
use std::alloc::Global;

/// A source, an item and its message.
#[tactic(auto, unfolding(crate::specs::Reading::accepted_at))]
fn accepted_at(alloc: Global, bytes: &[u8]) -> Result<(Kind, &[u8]), Stop>
    ensures { Gives (λ x. (x.0, x.1.now)) result (spec.accepted_at bytes.now) }
{
    let (source, behind_source) = small_at(bytes)?;
    let (item, behind_item) = phrase_at(alloc, behind_source)?;
    let (message, rest) = message_at(alloc, behind_item)?;
    let kind = Kind::Accept {
        source,
        item,
        message: Boxed::of(alloc, message)?,
    };
    Ok((kind, rest))
}

/// Why an item is no exchange.
#[tactic(auto, unfolding(crate::specs::Reading::cause_of_refusal_at))]
fn cause_of_refusal_at(bytes: &[u8]) -> Result<(Refused, &[u8]), Stop>
    ensures { Gives (λ x. (x.0, x.1.now)) result (spec.cause_of_refusal_at bytes.now) }
{
    if let Some(rest) = behind(bytes, b" NotText") {
        return Ok((Refused::NotText, rest));
    }
    match behind(bytes, b" TooLong") {
        Some(rest) => Ok((Refused::TooLong, rest)),
        None => Err(Stop::Bad),
    }
}

/// A source, an item and why it is no exchange.
#[tactic(auto, unfolding(crate::specs::Reading::refused_at))]
fn refused_at(alloc: Global, bytes: &[u8]) -> Result<(Kind, &[u8]), Stop>
    ensures { Gives (λ x. (x.0, x.1.now)) result (spec.refused_at bytes.now) }
{
    let (source, behind_source) = small_at(bytes)?;
    let (item, behind_item) = phrase_at(alloc, behind_source)?;
    let (cause, rest) = cause_of_refusal_at(behind_item)?;
    let kind = Kind::Refuse {
        source,
        item,
        cause,
    };
    Ok((kind, rest))
}

/// A queue and the exchange that left it.
#[tactic(auto, unfolding(crate::specs::Reading::started_at))]
fn started_at(bytes: &[u8]) -> Result<(Kind, &[u8]), Stop>
    ensures { Gives (λ x. (x.0, x.1.now)) result (spec.started_at bytes.now) }
{
    let (queue, behind_queue) = small_at(bytes)?;
    let (number, rest) = number_at(behind_queue)?;
    Ok((Kind::Start { queue, number }, rest))
}

/// An exchange and what it was answered.
#[tactic(auto, unfolding(crate::specs::Reading::answered_at))]
fn answered_at(alloc: Global, bytes: &[u8]) -> Result<(Kind, &[u8]), Stop>
    ensures { Gives (λ x. (x.0, x.1.now)) result (spec.answered_at bytes.now) }
{
    let (number, behind_number) = number_at(bytes)?;
    let (answer, rest) = answer_at(alloc, behind_number)?;
    Ok((Kind::Answer { number, answer }, rest))
}

/// What an entry says of an exchange or of the clock.
#[tactic(auto, unfolding(crate::specs::Reading::exchange_kind_at))]
fn exchange_kind_at(alloc: Global, bytes: &[u8]) -> Result<(Kind, &[u8]), Stop>
    ensures { Gives (λ x. (x.0, x.1.now)) result (spec.exchange_kind_at bytes.now) }
{
    if let Some(rest) = behind(bytes, b" start") {
        return started_at(rest);
    }
    if let Some(rest) = behind(bytes, b" take") {
        let (number, rest) = number_at(rest)?;
        return Ok((Kind::Take(number), rest));
    }
    if let Some(rest) = behind(bytes, b" answer") {
        return answered_at(alloc, rest);
    }
    if let Some(rest) = behind(bytes, b" tick") {
        let (due, rest) = number_at(rest)?;
        return Ok((Kind::Tick(due), rest));
    }
    if let Some(rest) = behind(bytes, b" force") {
        return Ok((Kind::Force, rest));
    }
    if let Some(rest) = behind(bytes, b" starve") {
        let (number, rest) = number_at(rest)?;
        return Ok((Kind::Starve(number), rest));
    }
    let Some(rest) = behind(bytes, b" return") else {
        return Err(Stop::Bad);
    };
    let (number, rest) = number_at(rest)?;
    Ok((Kind::Return(number), rest))
}

/// What an entry says.
#[tactic(auto, unfolding(crate::specs::Reading::kind_at))]
fn kind_at(alloc: Global, bytes: &[u8]) -> Result<(Kind, &[u8]), Stop>
    ensures { Gives (λ x. (x.0, x.1.now)) result (spec.kind_at bytes.now) }
{
    if let Some(rest) = behind(bytes, b" pull") {
        let (source, rest) = small_at(rest)?;
        return Ok((Kind::Pull(source), rest));
    }
    if let Some(rest) = behind(bytes, b" accept") {
        return accepted_at(alloc, rest);
    }
    if let Some(rest) = behind(bytes, b" refuse") {
        return refused_at(alloc, rest);
    }
    if let Some(rest) = behind(bytes, b" end") {
        let (source, rest) = small_at(rest)?;
        return Ok((Kind::SourceEnd(source), rest));
    }
    if let Some(rest) = behind(bytes, b" fault") {
        let (source, rest) = small_at(rest)?;
        return Ok((Kind::SourceFault(source), rest));
    }
    exchange_kind_at(alloc, bytes)
}

/// The entry in front of the bytes, which may be spelled otherwise.
#[tactic(auto, unfolding(crate::specs::Reading::entry_at))]
fn entry_at(alloc: Global, bytes: &[u8]) -> Result<Entry, Stop>
    ensures { Gives (λ e. e) result (spec.entry_at bytes.now) }
{
    let (number, rest) = digits(bytes)?;
    let worker = small(number)?;
    let (kind, _) = kind_at(alloc, rest)?;
    Ok(Entry { worker, kind })
}

/// The entry whose line stands in front, and what stands behind it: one is read, and then its line is compared.
#[tactic(auto, unfolding(crate::specs::Reading::entry_front))]
pub fn entry_front(alloc: Global, bytes: &[u8]) -> Result<(Entry, &[u8]), Stop>
    ensures reads { Gives (λ x. (x.0, x.1.now)) result (spec.entry_front bytes.now) }
    ensures kept { IfOk result (λ x. IsEntry x.0) }
{
    let entry = entry_at(alloc, bytes)?;
    let spelled = print_entry(alloc, &entry)?;
    match behind(bytes, spelled.bytes()) {
        Some(rest) => Ok((entry, rest)),
        None => Err(Stop::Bad),
    }
}

/// The entry whose line this is, with its LF. `BadDump(1)` exactly where it is the line of none.
pub fn read_entry(alloc: Global, line: &[u8]) -> Result<Entry, DumpFault>
    ensures { ReadsEntry line.now result }
{
    let (entry, rest) = match entry_front(alloc, line) {
        Ok(read) => read,
        Err(Stop::Bad) => return Err(DumpFault::BadDump(1)),
        Err(Stop::Memory) => return Err(DumpFault::NoMemory),
    };
    if !rest.is_empty() {
        return Err(DumpFault::BadDump(1));
    }
    Ok(entry)
}
