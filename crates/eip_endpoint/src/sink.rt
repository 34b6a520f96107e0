ghost use Rattle.std.specs.Prelude.{◌≡◌, ℕ, List, Option, IsErrOf};
ghost use Rattle.eip_text.specs.Causes.{Rises};
ghost use Rattle.eip_endpoint.specs.Sinks.{Wrote, sink_failure};

use thiserror::Error;

/// Why a piece was not written.
#[derive(Clone, Copy, Debug, PartialEq, Eq, Error)]
pub enum SinkFault {
    /// The sink failed, and its count of faults rose or stands at its greatest value. It may hold the front of the piece.
    #[error("the sink failed")]
    Failed,
    /// There was no memory, and nothing was written.
    #[error("out of memory")]
    NoMemory,
}

/// Where the text of a run is written to.
pub trait Sink {
    /// The bytes written so far, where the object tells them.
    ghost bytes: { Self → Option (List ℕ) };

    /// The count of faults, which never falls.
    ghost sink_faults: { Self → ℕ };

    /// Writes all of a piece, or fails behind the front of it. `Failed` comes only where the count of faults rose
    /// in this call or stands at its greatest value.
    fn write(&mut self, piece: &[u8]) -> Result<(), SinkFault>
        ensures content { Wrote (bytes self.old) piece.now result (bytes self.new) }
        ensures memory { IsErrOf result SinkFault.NoMemory → bytes self.new ≡ bytes self.old }
        ensures faults { Rises (sink_failure result) (sink_faults self.old) (sink_faults self.new) };
}
