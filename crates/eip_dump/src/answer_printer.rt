ghost use Rattle.std.specs.Prelude.{◌≡◌, ◌++◌, OnOk, length, string_bytes};
ghost use Rattle.std.specs.List.{flat_map};
ghost use Rattle.eip_dump.specs.Kept as kept;
ghost use Rattle.eip_dump.specs.Lines as spec;

use crate::message_printer::{push_ended, push_fault, push_message, push_number};
use eip_exchange::Ended;
use eip_frames::{Answer, Completion};
use eip_text::NoMemory;

/// Appends how many parts there are, and their ends and messages.
fn push_joined(out: &mut String, parts: &[Ended]) -> Result<(), NoMemory>
    ensures text { OnOk result (string_bytes out.new ≡ string_bytes out.old ++ (spec.number (length parts.now) ++ flat_map spec.ended_text parts.now)) }
    ensures kept { OnOk result (kept.Fits64 (length parts.now) × kept.AreEnded parts.now) }
{
    push_number(out, parts.len() as u64)?;
    push_parts(out, parts)
}

/// Appends the ends and messages of parts.
fn push_parts(out: &mut String, parts: &[Ended]) -> Result<(), NoMemory>
    ensures text { OnOk result (string_bytes out.new ≡ string_bytes out.old ++ flat_map spec.ended_text parts.now) }
    ensures kept { OnOk result (kept.AreEnded parts.now) }
{
    for part in parts {
        push_ended(out, part)?;
    }
    Ok(())
}

/// The word for what closed a group, with the space in front of it.
fn cause_word(cause: Completion) -> &'static str
    ensures { result.now ≡ spec.cause_text cause }
{
    match cause {
        Completion::Size => " size",
        Completion::Predicate => " predicate",
        Completion::Timeout => " timeout",
        Completion::Force => " force",
    }
}

/// Appends what closed a group, and the numbers of the group and of its exchange.
fn push_closed(out: &mut String, group: u64, cause: Completion, number: u64) -> Result<(), NoMemory>
    ensures { OnOk result (string_bytes out.new ≡ string_bytes out.old ++ (spec.number group ++ (spec.cause_text cause ++ spec.number number))) }
{
    push_number(out, group)?;
    out.push_str(cause_word(cause))?;
    push_number(out, number)
}

/// The word of an answer, with the space in front of it.
fn word(answer: &Answer) -> &'static str
    ensures { result.now ≡ spec.answer_word answer.now }
{
    match answer {
        Answer::Done => " done",
        Answer::SendFailed => " failed",
        Answer::Exists => " exists",
        Answer::Became(_) => " became",
        Answer::Raised(_) => " raised",
        Answer::Holds(true) => " true",
        Answer::Holds(false) => " false",
        Answer::Queued(_) => " queued",
        Answer::Full(_) => " full",
        Answer::Dropped => " dropped",
        Answer::Entered => " entered",
        Answer::Born { .. } => " born",
        Answer::Joined(_) => " joined",
        Answer::Arrived(_) => " arrived",
        Answer::Closed { .. } => " closed",
        Answer::Unfit(_) => " unfit",
        Answer::Fresh => " fresh",
        Answer::Duplicate(_) => " duplicate",
        Answer::Slept(_) => " slept",
        Answer::Noted => " noted",
        Answer::Finished => " finished",
        Answer::CommitFailed => " uncommitted",
    }
}

/// Appends what an answer says behind its word.
fn push_fields(out: &mut String, answer: &Answer) -> Result<(), NoMemory>
    ensures text { OnOk result (string_bytes out.new ≡ string_bytes out.old ++ spec.answer_fields answer.now) }
    ensures kept { OnOk result (kept.IsReply answer.now) }
{
    match answer {
        Answer::Became(message) => push_message(out, message.get()),
        Answer::Raised(fault) => push_fault(out, fault.get()),
        Answer::Unfit(fault) => push_fault(out, fault.get()),
        Answer::Joined(parts) => push_joined(out, parts.items()),
        Answer::Queued(number) => push_number(out, *number),
        Answer::Full(size) => push_number(out, u64::from(*size)),
        Answer::Born { first, count } => {
            push_number(out, *first)?;
            push_number(out, u64::from(*count))
        }
        Answer::Arrived(group) => push_number(out, *group),
        Answer::Closed {
            group,
            cause,
            number,
        } => push_closed(out, *group, *cause, *number),
        Answer::Duplicate(holder) => push_number(out, *holder),
        Answer::Slept(due) => push_number(out, *due),
        _ => Ok(()),
    }
}

/// Appends an answer.
pub fn push_answer(out: &mut String, answer: &Answer) -> Result<(), NoMemory>
    ensures text { OnOk result (string_bytes out.new ≡ string_bytes out.old ++ spec.answer_text answer.now) }
    ensures kept { OnOk result (kept.IsReply answer.now) }
{
    out.push_str(word(answer))?;
    push_fields(out, answer)
}
