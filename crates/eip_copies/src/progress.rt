ghost use Rattle.std.specs.Prelude.{◌≡◌, IfOk};

use crate::requests::copy_seeds;
use eip_exchange::{Ended, Fault};
use eip_frames::Seed;
use eip_progress::{Frame, Queue};
use eip_text::NoMemory;
use std::alloc::Global;

/// The same frames.
pub fn copy_frames(alloc: Global, frames: &[Frame]) -> Result<Vec<Frame>, NoMemory>
    ensures { IfOk result (λ v. v.items ≡ frames.now) }
{
    let mut copies = Vec::with_capacity(alloc, frames.len())?;
    for frame in frames {
        copies.push(copy_frame(frame)?)?;
    }
    Ok(copies)
}

fn copy_frame(frame: &Frame) -> Result<Frame, NoMemory>
    ensures { IfOk result (λ f. f ≡ frame.now) }
{
    match frame {
        Frame::Rest {
            context,
            block,
            index,
        } => Ok(Frame::Rest {
            context: *context,
            block: *block,
            index: *index,
        }),
        Frame::Clause {
            handled,
            continued,
            fault,
        } => Ok(Frame::Clause {
            handled: *handled,
            continued: *continued,
            fault: fault.copy()?,
        }),
        Frame::Letter => Ok(Frame::Letter),
    }
}

/// The same fault, where one is pending.
pub fn copy_pending(pending: &Option<Fault>) -> Result<Option<Fault>, NoMemory>
    ensures { IfOk result (λ f. f ≡ pending.now) }
{
    match pending {
        Some(fault) => Ok(Some(fault.copy()?)),
        None => Ok(None),
    }
}

/// The same parts.
pub fn copy_ended(alloc: Global, parts: &[Ended]) -> Result<Vec<Ended>, NoMemory>
    ensures { IfOk result (λ v. v.items ≡ parts.now) }
{
    let mut copies = Vec::with_capacity(alloc, parts.len())?;
    for part in parts {
        copies.push(part.copy(alloc)?)?;
    }
    Ok(copies)
}

/// The same seeds in the same order.
pub fn copy_queue(alloc: Global, left: &Queue<Seed>) -> Result<Queue<Seed>, NoMemory>
    ensures { IfOk result (λ q. q ≡ left.now) }
{
    let copies = copy_seeds(alloc, left.turned())?;
    Ok(Queue::of_turned(copies))
}
