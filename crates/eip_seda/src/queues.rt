ghost use Rattle.std.specs.Prelude.{◌≡◌, ◌<◌, ◌↔◌, ℕ, List, [], ◌∷◌, length, IfOk, OnOk, OnErr, IsErrOf, slice_get};
ghost use Rattle.eip_seda.specs.Consuming.{Call, Offered, Ended, Stands, IsFullAt, next, started_by, busy_at, can_start};
ghost use Rattle.std.specs.List.{position_from};

use crate::queue::Queue;
use eip_text::NoMemory;
use std::alloc::Global;
use std::marker::Model;
use thiserror::Error;

/// Why a number was not taken into a queue.
#[derive(Clone, Copy, Debug, PartialEq, Eq, Error)]
pub enum OfferFault {
    /// The queue holds as many as it may, which is this many.
    #[error("queue full at {0}")]
    QueueFull(u32),
    #[error("out of memory")]
    NoMemory,
}

impl From<NoMemory> for OfferFault {
    ghost use Rattle.std.specs.Prelude.{◌≡◌};
    ghost use Rattle.eip_seda.specs.declared.queues.OfferFault.TheVariants.{NoMemory};

    ghost from_gives = { λ _ e. e ≡ NoMemory };

    fn from(_refused: NoMemory) -> OfferFault {
        OfferFault::NoMemory
    }
}

/// What waits in the queue of each route, the first one first, and how many of its consumers are at work (Camel manual,
/// *SEDA*). It stands for the list of its calls.
pub struct Queues {
    queues: Vec<Queue>,
}

impl Drop for Queues {
    fn drop(self) {
        let Queues { queues } = self;
        drop(queues);
    }
}

impl Model for Queues {
    ghost use Rattle.std.specs.Prelude.{List};
    ghost use Rattle.eip_seda.specs.Consuming.{QueueView};

    ghost Value = { List QueueView };

    ghost view = { λ q. q.queues.items };
}

impl Queues {
    /// Empty queues, one for each route by its index: how many it may hold, and by how many it is consumed.
    pub fn new(alloc: Global, limits: Vec<(u32, u32)>) -> Result<Queues, NoMemory>
        ensures { IfOk result (λ queues. Stands limits.items [] queues) }
    {
        let mut queues = Vec::new(alloc);
        for limit in &limits {
            queues.push(Queue::new(alloc, limit.0, limit.1))?;
        }
        Ok(Queues { queues })
    }

    /// The number waits in the queue behind the others. `QueueFull` exactly where as many wait as may.
    pub fn offer(&mut self, queue: u32, number: u64) -> Result<(), OfferFault>
        requires { queue < length self.old }
        ensures ok { OnOk result ((limits : List (ℕ × ℕ)) (calls : List Call) → Stands limits calls self.old → Stands limits (Offered queue number ∷ calls) self.new) }
        ensures full { (limits : List (ℕ × ℕ)) (calls : List Call) → Stands limits calls self.old → (size : ℕ) → IsErrOf result (OfferFault.QueueFull size) ↔ IsFullAt limits calls queue size }
        ensures err { OnErr result (self.new ≡ self.old) }
        ensures as_many { length self.new ≡ length self.old }
    {
        self.queues[queue as usize].offer(number)
    }

    /// The first queue, by its route, in which somebody waits and a consumer is free.
    pub fn first_startable(&self) -> Option<usize>
        ensures { result ≡ position_from can_start 0 self.now }
    {
        self.queues.iter().position(|queue| queue.can_start())
    }

    /// The first one in the queue starts. None exactly where nobody waits in it or all its consumers are at work. It
    /// takes no memory.
    pub fn start(&mut self, queue: u32) -> Option<u64>
        requires { queue < length self.old }
        ensures number { (limits : List (ℕ × ℕ)) (calls : List Call) → Stands limits calls self.old → result ≡ next limits calls queue }
        ensures stands { (limits : List (ℕ × ℕ)) (calls : List Call) → Stands limits calls self.old → Stands limits (started_by queue result calls) self.new }
        ensures as_many { length self.new ≡ length self.old }
    {
        self.queues[queue as usize].start()
    }

    /// One that started from the queue has ended. It takes no memory.
    pub fn ended(&mut self, queue: u32)
        requires in_range { queue < length self.old }
        requires busy { 0 < busy_at self.old queue }
        ensures stands { (limits : List (ℕ × ℕ)) (calls : List Call) → Stands limits calls self.old → Stands limits (Ended queue ∷ calls) self.new }
        ensures as_many { length self.new ≡ length self.old }
    {
        self.queues[queue as usize].end();
    }
}
