ghost use Rattle.std.specs.Prelude.{◌≡◌, ℕ, List, Option, IsErrOf};
ghost use Rattle.std.specs.Io.{ReadsAtMost};
ghost use Rattle.std.specs.Io.KnownBytes.{ReadConsumes};
ghost use Rattle.eip_text.specs.Causes.{Rises};
ghost use Rattle.eip_line.specs.Links.{Wrote, link_failure};

use eip_frames::Target;
use eip_uri::Uri;
use thiserror::Error;

/// Why bytes did not come or go.
#[derive(Clone, Copy, Debug, PartialEq, Eq, Error)]
pub enum LinkFault {
    /// The link failed, and its count of faults rose or stands at its greatest value. A read that failed took no
    /// byte; a write that failed may have written the front of its bytes.
    #[error("the link failed")]
    Failed,
    /// There was no memory, and nothing was done.
    #[error("out of memory")]
    NoMemory,
}

/// What bytes come from and go to (Hohpe and Woolf, *Channel Adapter*). `Failed` comes only where the count of faults
/// rose in the call or stands at its greatest value.
pub trait Link {
    /// The bytes that are left to read, where the object tells them.
    ghost unread: { Self → Option (List ℕ) };

    /// The bytes written so far, where the object tells them.
    ghost written: { Self → Option (List ℕ) };

    /// The count of faults, which never falls.
    ghost link_faults: { Self → ℕ };

    /// Reads the first bytes that are left into the front of the piece, and answers how many. Into a piece that is
    /// not empty none are read only where none are left.
    fn read(&mut self, from: &Uri, piece: &mut [u8]) -> Result<usize, LinkFault>
        ensures bound { ReadsAtMost result piece.new }
        ensures bytes { ReadConsumes (unread self.old) (unread self.new) result piece.new }
        ensures written { written self.new ≡ written self.old }
        ensures faults { Rises (link_failure result) (link_faults self.old) (link_faults self.new) };

    /// Writes all of the bytes, or fails behind the front of them.
    fn write(&mut self, target: &Target, bytes: &[u8]) -> Result<(), LinkFault>
        ensures content { Wrote (written self.old) bytes.now result (written self.new) }
        ensures memory { IsErrOf result LinkFault.NoMemory → written self.new ≡ written self.old }
        ensures unread { unread self.new ≡ unread self.old }
        ensures faults { Rises (link_failure result) (link_faults self.old) (link_faults self.new) };
}
