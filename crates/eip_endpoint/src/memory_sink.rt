ghost use Rattle.std.specs.Prelude.{◌≡◌, Some, [], IsErrOf};
ghost use Rattle.eip_text.specs.Causes.{Rises};
ghost use Rattle.eip_endpoint.specs.Sinks.{Wrote, sink_failure};
ghost use Rattle.eip_endpoint.specs.Counters.{fresh};
ghost use Rattle.eip_endpoint.specs.MemorySinks.{Written};

use crate::counter::CallCounter;
use crate::sink::{Sink, SinkFault};
use std::alloc::Global;
use std::marker::Model;

/// A sink in memory. The writes whose number, from 1, stands in a list fail and write nothing.
#[derive(Drop)]
pub struct MemorySink {
    bytes: Vec<u8>,
    counter: CallCounter,
}

impl Model for MemorySink {
    ghost use Rattle.eip_endpoint.specs.MemorySinks.{KeptBytes};

    ghost Value = { KeptBytes };

    ghost view = { λ s. record { bytes = s.bytes.items; counter = s.counter } };
}

impl MemorySink {
    /// An empty sink, by the numbers, from 1, of the writes that are to fail. It takes no memory.
    pub fn new(alloc: Global, failing: Vec<u64>) -> MemorySink
        ensures bytes { result.bytes ≡ [] }
        ensures counter { result.counter ≡ fresh failing.items }
    {
        MemorySink {
            bytes: Vec::new(alloc),
            counter: CallCounter::new(failing),
        }
    }

    /// The bytes written so far.
    pub fn bytes(&self) -> &[u8]
        ensures { result.now ≡ self.now.bytes }
    {
        self.bytes.as_slice()
    }
}

impl Sink for MemorySink {
    ghost bytes = { λ s. Some s.bytes };

    ghost sink_faults = { λ s. s.counter.faults };

    /// Writes all of the piece, or nothing of it exactly where the number of the write stands in the list.
    fn write(&mut self, piece: &[u8]) -> Result<(), SinkFault>
        ensures content { Wrote (Some self.old.bytes) piece.now result (Some self.new.bytes) }
        ensures memory { IsErrOf result SinkFault.NoMemory → Some self.new.bytes ≡ Some self.old.bytes }
        ensures faults { Rises (sink_failure result) self.old.counter.faults self.new.counter.faults }
        ensures written { Written self.old piece.now result self.new }
    {
        if self.bytes.reserve(piece.len()).is_err() {
            return Err(SinkFault::NoMemory);
        }
        if self.counter.advance() {
            return Err(SinkFault::Failed);
        }
        self.bytes.extend_from_slice(piece).unwrap();
        Ok(())
    }
}
