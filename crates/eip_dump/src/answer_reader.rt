ghost use Rattle.eip_dump.specs.Reading as spec;
ghost use Rattle.eip_dump.specs.Reading.{Gives};

use crate::fault::Stop;
use crate::message_reader::{fault_at, message_at, parts_at};
use crate::number_reader::{behind, number_at, small_at};
use eip_frames::{Answer, Completion};
use eip_text::{Boxed, Series};
use std::alloc::Global;

/// What closed a group, and what stands behind it.
#[tactic(auto, unfolding(crate::specs::Reading::cause_at))]
fn cause_at(bytes: &[u8]) -> Result<(Completion, &[u8]), Stop>
    ensures { Gives (λ x. (x.0, x.1.now)) result (spec.cause_at bytes.now) }
{
    if let Some(rest) = behind(bytes, b" size") {
        return Ok((Completion::Size, rest));
    }
    if let Some(rest) = behind(bytes, b" predicate") {
        return Ok((Completion::Predicate, rest));
    }
    if let Some(rest) = behind(bytes, b" timeout") {
        return Ok((Completion::Timeout, rest));
    }
    match behind(bytes, b" force") {
        Some(rest) => Ok((Completion::Force, rest)),
        None => Err(Stop::Bad),
    }
}

/// An answer that is one word about a lane, a predicate or a queue.
#[tactic(auto, unfolding(crate::specs::Reading::lane_answer_at))]
fn lane_answer_at(bytes: &[u8]) -> Result<(Answer, &[u8]), Stop>
    ensures { Gives (λ x. (x.0, x.1.now)) result (spec.lane_answer_at bytes.now) }
{
    if let Some(rest) = behind(bytes, b" done") {
        return Ok((Answer::Done, rest));
    }
    if let Some(rest) = behind(bytes, b" failed") {
        return Ok((Answer::SendFailed, rest));
    }
    if let Some(rest) = behind(bytes, b" exists") {
        return Ok((Answer::Exists, rest));
    }
    if let Some(rest) = behind(bytes, b" true") {
        return Ok((Answer::Holds(true), rest));
    }
    if let Some(rest) = behind(bytes, b" false") {
        return Ok((Answer::Holds(false), rest));
    }
    match behind(bytes, b" dropped") {
        Some(rest) => Ok((Answer::Dropped, rest)),
        None => Err(Stop::Bad),
    }
}

/// Any answer that is one word.
#[tactic(auto, unfolding(crate::specs::Reading::plain_answer_at))]
fn plain_answer_at(bytes: &[u8]) -> Result<(Answer, &[u8]), Stop>
    ensures { Gives (λ x. (x.0, x.1.now)) result (spec.plain_answer_at bytes.now) }
{
    if let Some(rest) = behind(bytes, b" entered") {
        return Ok((Answer::Entered, rest));
    }
    if let Some(rest) = behind(bytes, b" fresh") {
        return Ok((Answer::Fresh, rest));
    }
    if let Some(rest) = behind(bytes, b" noted") {
        return Ok((Answer::Noted, rest));
    }
    if let Some(rest) = behind(bytes, b" finished") {
        return Ok((Answer::Finished, rest));
    }
    if let Some(rest) = behind(bytes, b" uncommitted") {
        return Ok((Answer::CommitFailed, rest));
    }
    lane_answer_at(bytes)
}

/// The first number and the count of parts that were born.
#[tactic(auto, unfolding(crate::specs::Reading::born_at))]
fn born_at(bytes: &[u8]) -> Result<(Answer, &[u8]), Stop>
    ensures { Gives (λ x. (x.0, x.1.now)) result (spec.born_at bytes.now) }
{
    let (first, behind_first) = number_at(bytes)?;
    let (count, rest) = small_at(behind_first)?;
    Ok((Answer::Born { first, count }, rest))
}

/// The number of a closed group, what closed it, and the number of its exchange.
#[tactic(auto, unfolding(crate::specs::Reading::closed_at))]
fn closed_at(bytes: &[u8]) -> Result<(Answer, &[u8]), Stop>
    ensures { Gives (λ x. (x.0, x.1.now)) result (spec.closed_at bytes.now) }
{
    let (group, behind_group) = number_at(bytes)?;
    let (cause, behind_cause) = cause_at(behind_group)?;
    let (number, rest) = number_at(behind_cause)?;
    let answer = Answer::Closed {
        group,
        cause,
        number,
    };
    Ok((answer, rest))
}

/// An answer with numbers, or one that is one word.
#[tactic(auto, unfolding(crate::specs::Reading::counted_answer_at))]
fn counted_answer_at(bytes: &[u8]) -> Result<(Answer, &[u8]), Stop>
    ensures { Gives (λ x. (x.0, x.1.now)) result (spec.counted_answer_at bytes.now) }
{
    if let Some(rest) = behind(bytes, b" queued") {
        let (number, rest) = number_at(rest)?;
        return Ok((Answer::Queued(number), rest));
    }
    if let Some(rest) = behind(bytes, b" full") {
        let (size, rest) = small_at(rest)?;
        return Ok((Answer::Full(size), rest));
    }
    if let Some(rest) = behind(bytes, b" born") {
        return born_at(rest);
    }
    if let Some(rest) = behind(bytes, b" arrived") {
        let (group, rest) = number_at(rest)?;
        return Ok((Answer::Arrived(group), rest));
    }
    if let Some(rest) = behind(bytes, b" closed") {
        return closed_at(rest);
    }
    if let Some(rest) = behind(bytes, b" duplicate") {
        let (holder, rest) = number_at(rest)?;
        return Ok((Answer::Duplicate(holder), rest));
    }
    if let Some(rest) = behind(bytes, b" slept") {
        let (due, rest) = number_at(rest)?;
        return Ok((Answer::Slept(due), rest));
    }
    plain_answer_at(bytes)
}

/// An answer, and what stands behind it.
#[tactic(auto, unfolding(crate::specs::Reading::answer_at))]
pub fn answer_at(alloc: Global, bytes: &[u8]) -> Result<(Answer, &[u8]), Stop>
    ensures { Gives (λ x. (x.0, x.1.now)) result (spec.answer_at bytes.now) }
{
    if let Some(rest) = behind(bytes, b" became") {
        let (message, rest) = message_at(alloc, rest)?;
        return Ok((Answer::Became(Boxed::of(alloc, message)?), rest));
    }
    if let Some(rest) = behind(bytes, b" raised") {
        let (fault, rest) = fault_at(alloc, rest)?;
        return Ok((Answer::Raised(Boxed::of(alloc, fault)?), rest));
    }
    if let Some(rest) = behind(bytes, b" unfit") {
        let (fault, rest) = fault_at(alloc, rest)?;
        return Ok((Answer::Unfit(Boxed::of(alloc, fault)?), rest));
    }
    if let Some(rest) = behind(bytes, b" joined") {
        let (parts, rest) = parts_at(alloc, rest)?;
        return Ok((Answer::Joined(Series::of(parts)), rest));
    }
    counted_answer_at(bytes)
}
