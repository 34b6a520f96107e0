ghost use Rattle.std.specs.Prelude.{◌≡◌, Some, [], length, IsErrOf};
ghost use Rattle.std.specs.Io.{ReadsAtMost};
ghost use Rattle.std.specs.Io.KnownBytes.{ReadConsumes};
ghost use Rattle.eip_text.specs.Causes.{Rises};
ghost use Rattle.eip_endpoint.specs.Counters.{fresh};
ghost use Rattle.eip_line.specs.Links.{Wrote, link_failure};
ghost use Rattle.eip_line.specs.MemoryLinks.{ReadNext, WroteNext};

use crate::link::{Link, LinkFault};
use eip_endpoint::CallCounter;
use eip_frames::Target;
use eip_uri::Uri;
use std::alloc::Global;
use std::marker::Model;

/// A link in memory: what reads are to give, and what was written, whatever the endpoint. The calls whose number,
/// from 1 over reads and writes, stands in a list fail, and then read and write nothing.
#[derive(Drop)]
pub struct MemoryLink {
    input: Vec<u8>,
    /// How many of its bytes were read.
    start: usize,
    output: Vec<u8>,
    counter: CallCounter,
}

impl Model for MemoryLink {
    ghost use Rattle.std.specs.Prelude.{◌≤◌, drop, vec_len};
    ghost use Rattle.eip_line.specs.MemoryLinks.{KeptLink};

    ghost Value = { KeptLink };

    ghost view = { λ l. record { unread = drop l.start l.input.items; written = l.output.items; counter = l.counter } };

    ghost invariant = { λ l. l.start ≤ vec_len l.input };
}

impl MemoryLink {
    /// A link with these bytes left to read, by the numbers, from 1, of the calls that are to fail. It takes no memory.
    pub fn new(alloc: Global, input: Vec<u8>, failing: Vec<u64>) -> MemoryLink
        ensures unread { result.unread ≡ input.items }
        ensures written { result.written ≡ [] }
        ensures counter { result.counter ≡ fresh failing.items }
    {
        MemoryLink {
            input,
            start: 0,
            output: Vec::new(alloc),
            counter: CallCounter::new(failing),
        }
    }

    /// The bytes written so far.
    pub fn written(&self) -> &[u8]
        ensures { result.now ≡ self.now.written }
    {
        self.output.as_slice()
    }
}

impl Link for MemoryLink {
    ghost unread = { λ l. Some l.unread };

    ghost written = { λ l. Some l.written };

    ghost link_faults = { λ l. l.counter.faults };

    /// Reads as many bytes as are left and the piece has room for. `Failed` comes exactly where the number of the call
    /// stands in the list. It takes no memory.
    fn read(&mut self, _from: &Uri, piece: &mut [u8]) -> Result<usize, LinkFault>
        ensures bound { ReadsAtMost result piece.new }
        ensures bytes { ReadConsumes (Some self.old.unread) (Some self.new.unread) result piece.new }
        ensures written { Some self.new.written ≡ Some self.old.written }
        ensures faults { Rises (link_failure result) self.old.counter.faults self.new.counter.faults }
        ensures next { ReadNext self.old (length piece.new) result self.new }
    {
        if self.counter.advance() {
            return Err(LinkFault::Failed);
        }
        let left = &self.input.as_slice()[self.start..];
        let count = left.len().min(piece.len());
        piece[..count].copy_from_slice(&left[..count]);
        self.start += count;
        Ok(count)
    }

    /// Writes all of the bytes, or none exactly where the number of the call stands in the list.
    fn write(&mut self, _target: &Target, bytes: &[u8]) -> Result<(), LinkFault>
        ensures content { Wrote (Some self.old.written) bytes.now result (Some self.new.written) }
        ensures memory { IsErrOf result LinkFault.NoMemory → Some self.new.written ≡ Some self.old.written }
        ensures unread { Some self.new.unread ≡ Some self.old.unread }
        ensures faults { Rises (link_failure result) self.old.counter.faults self.new.counter.faults }
        ensures next { WroteNext self.old bytes.now result self.new }
    {
        if self.output.reserve(bytes.len()).is_err() {
            return Err(LinkFault::NoMemory);
        }
        if self.counter.advance() {
            return Err(LinkFault::Failed);
        }
        self.output.extend_from_slice(bytes).unwrap();
        Ok(())
    }
}
