ghost use Rattle.std.specs.Prelude.{◌≡◌, ◌<◌, ◌↔◌, ◌-◌, ◌++◌, ℕ, [], ◌∷◌, length, OnOk, OnErr, IsErrOf};
ghost use Rattle.eip_seda.specs.Consuming.{fresh, with_waiting, with_busy, next_in, can_start, started};

use crate::queues::OfferFault;
use eip_text::NoMemory;
use std::alloc::Global;
use std::collections::VecDeque;
use std::marker::Model;

/// One queue: how many it may hold, by how many it is consumed, who waits, and how many are at work.
#[derive(Drop)]
pub struct Queue {
    size: u32,
    consumers: u32,
    waiting: VecDeque<u64>,
    busy: u32,
}

impl Model for Queue {
    ghost use Rattle.eip_seda.specs.Consuming.{QueueView};

    ghost Value = { QueueView };

    ghost view = { λ q. record { size = q.size; consumers = q.consumers; waiting = q.waiting.items; busy = q.busy } };
}

impl Queue {
    /// Nobody waits and nobody is at work.
    pub fn new(alloc: Global, size: u32, consumers: u32) -> Queue
        ensures { result ≡ fresh (size, consumers) }
    {
        Queue {
            size,
            consumers,
            waiting: VecDeque::new(alloc),
            busy: 0,
        }
    }

    /// The number waits behind the others. `QueueFull` exactly where as many wait as may.
    pub fn offer(&mut self, number: u64) -> Result<(), OfferFault>
        ensures ok { OnOk result (self.new ≡ with_waiting (self.old.waiting ++ number ∷ []) self.old) }
        ensures full { (size : ℕ) → IsErrOf result (OfferFault.QueueFull size) ↔ ((length self.old.waiting ≡ self.old.size) × (size ≡ self.old.size)) }
        ensures err { OnErr result (self.new ≡ self.old) }
    {
        if self.waiting.len() == self.size as usize {
            return Err(OfferFault::QueueFull(self.size));
        }
        push_back(&mut self.waiting, number)?;
        Ok(())
    }

    /// The first one starts. None exactly where nobody waits or every consumer is at work.
    pub fn start(&mut self) -> Option<u64>
        ensures number { result ≡ next_in self.old }
        ensures queue { self.new ≡ started result self.old }
    {
        if self.busy >= self.consumers {
            return None;
        }
        let number = self.waiting.pop_front()?;
        self.busy += 1;
        Some(number)
    }

    /// Whether somebody waits and a consumer is free.
    pub fn can_start(&self) -> bool
        ensures { result ≡ can_start self.now }
    {
        !self.waiting.is_empty() && self.busy < self.consumers
    }

    /// One that is at work has ended.
    pub fn end(&mut self)
        requires { 0 < self.old.busy }
        ensures { self.new ≡ with_busy (self.old.busy - 1) self.old }
    {
        self.busy -= 1;
    }
}

fn push_back(waiting: &mut VecDeque<u64>, number: u64) -> Result<(), NoMemory>
    ensures ok { OnOk result (waiting.new.items ≡ waiting.old.items ++ number ∷ []) }
    ensures err { OnErr result (waiting.new.items ≡ waiting.old.items) }
{
    waiting.push_back(number)?;
    Ok(())
}
