ghost use Rattle.std.specs.Prelude.{◌≡◌, ◌<◌, ℕ, List, length, IfOk};
ghost use Rattle.eip_seda.specs.Consuming.{Call, Stands};

use eip_seda::{OfferFault, Queues};
use eip_text::NoMemory;
use std::alloc::Global;

/// The first one in a queue starts and ends.
fn served(queues: &mut Queues, queue: u32) -> Option<u64>
    requires in_range { queue < length queues.old }
    requires stands { (limits : List (ℕ × ℕ)) × ((calls : List Call) × Stands limits calls queues.old) }
    ensures as_many { length queues.new ≡ length queues.old }
    ensures stands { (limits : List (ℕ × ℕ)) × ((calls : List Call) × Stands limits calls queues.new) }
{
    let number = queues.start(queue)?;
    queues.ended(queue);
    Some(number)
}

/// Four queues that hold so many, one consumer each.
fn four_queues(alloc: Global, size: u32) -> Result<Queues, NoMemory>
    ensures as_many { IfOk result (λ queues. length queues ≡ 4) }
    ensures stands { IfOk result (λ queues. (limits : List (ℕ × ℕ)) × ((calls : List Call) × Stands limits calls queues)) }
{
    let mut limits = Vec::new(alloc);
    limits.push((size, 1))?;
    limits.push((size, 1))?;
    limits.push((size, 1))?;
    limits.push((size, 1))?;
    Queues::new(alloc, limits)
}

/// The numbers below a count wait, each in the queue of its remainder.
fn many_waiting(alloc: Global, count: u32) -> Result<Queues, OfferFault>
    ensures as_many { IfOk result (λ queues. length queues ≡ 4) }
    ensures stands { IfOk result (λ queues. (limits : List (ℕ × ℕ)) × ((calls : List Call) × Stands limits calls queues)) }
{
    let mut queues = four_queues(alloc, count)?;
    for number in 0..count {
        queues.offer(number % 4, u64::from(number))?;
    }
    Ok(queues)
}

/// So many, a multiple of four, wait in four queues, which are served in turn, the last one first: the first who isn't served
/// as they came, or who is left at the end.
pub fn out_of_turn(alloc: Global, count: u32) -> Result<Option<u64>, OfferFault> {
    let mut queues = many_waiting(alloc, count)?;
    for turn in 0..count {
        let queue = 3 - turn % 4;
        let want = u64::from(turn - turn % 4) + u64::from(queue);
        if served(&mut queues, queue) != Some(want) {
            return Ok(Some(want));
        }
    }
    Ok(served(&mut queues, 0))
}
