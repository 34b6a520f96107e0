ghost use Rattle.std.specs.Prelude.{◌≡◌, Some, [], true, IfOk, IsErrOf};
ghost use Rattle.eip_text.specs.Causes.{Rises};
ghost use Rattle.eip_frames.specs.Fits.{may_exist};
ghost use Rattle.eip_endpoint.specs.Content.{extended};
ghost use Rattle.eip_endpoint.specs.Calls.{made, failures};
ghost use Rattle.eip_endpoint.specs.Counters.{fresh};
ghost use Rattle.eip_endpoint.specs.MemoryLanes.{Sent};

use crate::counter::CallCounter;
use crate::endpoint::{Call, Endpoint, Outcome, SendFault};
use eip_exchange::Message;
use eip_frames::Target;
use eip_text::NoMemory;
use std::alloc::Global;
use std::marker::Model;

/// A lane in memory, which keeps its calls. Those whose number, from 1, stands in a list fail.
#[derive(Drop)]
pub struct MemoryLane {
    alloc: Global,
    calls: Vec<Call>,
    counter: CallCounter,
}

impl Model for MemoryLane {
    ghost use Rattle.eip_endpoint.specs.MemoryLanes.{KeptCalls};

    ghost Value = { KeptCalls };

    ghost view = { λ l. record { calls = l.calls.items; counter = l.counter } };
}

impl MemoryLane {
    /// A lane without calls, by the numbers, from 1, of the calls that are to fail. It takes no memory.
    pub fn new(alloc: Global, failing: Vec<u64>) -> MemoryLane
        ensures calls { result.calls ≡ [] }
        ensures counter { result.counter ≡ fresh failing.items }
    {
        MemoryLane {
            alloc,
            calls: Vec::new(alloc),
            counter: CallCounter::new(failing),
        }
    }

    /// The calls so far, the first one first, those that failed among them.
    pub fn calls(&self) -> &[Call]
        ensures { result.now ≡ self.now.calls }
    {
        self.calls.as_slice()
    }
}

impl Endpoint for MemoryLane {
    ghost calls = { λ l. Some l.calls };

    ghost lane_faults = { λ l. l.counter.faults };

    /// Keeps the call, which is `Failed` exactly where its number stands in the list.
    fn send(&mut self, target: &Target, message: &Message) -> Result<(), SendFault>
        ensures calls { Some self.new.calls ≡ extended (Some self.old.calls) (made target.now message.now result) }
        ensures faults { Rises (failures (made target.now message.now result)) self.old.counter.faults self.new.counter.faults }
        ensures exists { IsErrOf result SendFault.Exists → may_exist target.now ≡ true }
        ensures sent { Sent self.old target.now message.now result self.new }
    {
        if self.calls.reserve(1).is_err() {
            return Err(SendFault::NoMemory);
        }
        let Ok(target) = target.copy() else {
            return Err(SendFault::NoMemory);
        };
        let Ok(message) = message.copy(self.alloc) else {
            return Err(SendFault::NoMemory);
        };
        if self.counter.advance() {
            let outcome = Outcome::Failed;
            self.calls
                .push(Call {
                    target,
                    message,
                    outcome,
                })
                .unwrap();
            return Err(SendFault::Failed);
        }
        let outcome = Outcome::Done;
        self.calls
            .push(Call {
                target,
                message,
                outcome,
            })
            .unwrap();
        Ok(())
    }
}
