ghost use Rattle.std.specs.Prelude.{◌≡◌, IfOk};

use eip_copies::copy_ended;
use eip_frames::Answer;
use eip_text::{Boxed, NoMemory, Series};
use std::alloc::Global;

/// The same answer.
pub fn copy_answer(alloc: Global, answer: &Answer) -> Result<Answer, NoMemory>
    ensures { IfOk result (λ a. a ≡ answer.now) }
{
    match answer {
        Answer::Done => Ok(Answer::Done),
        Answer::SendFailed => Ok(Answer::SendFailed),
        Answer::Exists => Ok(Answer::Exists),
        Answer::Became(message) => Ok(Answer::Became(Boxed::of(
            alloc,
            message.get().copy(alloc)?,
        )?)),
        Answer::Raised(fault) => Ok(Answer::Raised(Boxed::of(alloc, fault.get().copy()?)?)),
        Answer::Holds(holds) => Ok(Answer::Holds(*holds)),
        Answer::Queued(number) => Ok(Answer::Queued(*number)),
        Answer::Full(size) => Ok(Answer::Full(*size)),
        Answer::Dropped => Ok(Answer::Dropped),
        Answer::Entered => Ok(Answer::Entered),
        Answer::Born { first, count } => Ok(Answer::Born {
            first: *first,
            count: *count,
        }),
        Answer::Joined(parts) => Ok(Answer::Joined(Series::of(copy_ended(alloc, parts.items())?))),
        Answer::Arrived(group) => Ok(Answer::Arrived(*group)),
        Answer::Closed {
            group,
            cause,
            number,
        } => Ok(Answer::Closed {
            group: *group,
            cause: *cause,
            number: *number,
        }),
        Answer::Unfit(fault) => Ok(Answer::Unfit(Boxed::of(alloc, fault.get().copy()?)?)),
        Answer::Fresh => Ok(Answer::Fresh),
        Answer::Duplicate(holder) => Ok(Answer::Duplicate(*holder)),
        Answer::Slept(moment) => Ok(Answer::Slept(*moment)),
        Answer::Noted => Ok(Answer::Noted),
        Answer::Finished => Ok(Answer::Finished),
        Answer::CommitFailed => Ok(Answer::CommitFailed),
    }
}
