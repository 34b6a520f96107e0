ghost use Rattle.std.specs.Prelude.{◌≡◌, [], None, IsErrOf, IsOk, IsTrue, is_ok};
ghost use Rattle.eip_text.specs.Causes.{Rises};
ghost use Rattle.eip_endpoint.specs.Sinks.{Wrote, sink_failure};
ghost use Rattle.eip_host.specs.Outputs.{Put, Said};

use eip_endpoint::{Sink, SinkFault};
use std::io::Write;

/// Writes all of the bytes, and says whether that was done. Where it was not, the front of them may be written.
pub fn put_all<W: Write>(writer: &mut W, bytes: &[u8]) -> bool
    ensures put { Put (W.contents writer.old) bytes.now result (W.contents writer.new) }
    ensures empty { bytes.now ≡ [] → IsTrue result }
{
    let mut rest = bytes;
    'parts: while !rest.is_empty() {
        let Ok(count) = writer.write(rest) else {
            return false;
        };
        if count == 0 {
            return false;
        }
        let (_, more) = rest.split_at(count);
        rest = more;
    }
    true
}

/// A sink over a writer, as standard output is one. It tells no content.
#[derive(Drop)]
pub struct Output<W> {
    pub writer: W,
    /// How many pieces failed.
    pub faults: u64,
}

impl<W: Write> Output<W> {
    /// A sink over this writer.
    pub fn new(writer: W) -> Output<W>
        ensures { result ≡ record { writer = writer; faults = 0 } }
    {
        Output { writer, faults: 0 }
    }
}

impl<W: Write> Sink for Output<W> {
    ghost bytes = { λ _. None };

    ghost sink_faults = { λ s. s.faults };

    /// Writes all of a piece, and for an empty one asks nothing of the writer. Where the writer answers an error, or
    /// takes nothing of what is left, the piece has failed, and the front of it may be written.
    fn write(&mut self, piece: &[u8]) -> Result<(), SinkFault>
        ensures content { Wrote None piece.now result None }
        ensures memory { ¬ (IsErrOf result SinkFault.NoMemory) }
        ensures faults { Rises (sink_failure result) self.old.faults self.new.faults }
        ensures empty { piece.now ≡ [] → IsOk result }
        ensures put { Put (W.contents self.old.writer) piece.now (is_ok result) (W.contents self.new.writer) }
    {
        if put_all(&mut self.writer, piece) {
            return Ok(());
        }
        self.faults = self.faults.saturating_add(1);
        Err(SinkFault::Failed)
    }
}

/// The status of a text that could not be written.
const NOT_WRITTEN: u8 = 2;

/// The status where memory was wanting.
const NO_MEMORY: u8 = 5;

/// Writes a text, and answers the status that the program ends with: the one that is given, unless it is 0 and the
/// text was not written.
pub fn say<S: Sink>(out: &mut S, text: &str, status: u8) -> u8
    ensures { Said text.now status (S.bytes out.old) (S.bytes out.new) (S.sink_faults out.old) (S.sink_faults out.new) result }
{
    match out.write(text.as_bytes()) {
        Err(SinkFault::Failed) if status == 0 => NOT_WRITTEN,
        Err(SinkFault::NoMemory) if status == 0 => NO_MEMORY,
        _ => status,
    }
}
