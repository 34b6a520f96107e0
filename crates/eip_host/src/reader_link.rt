ghost use Rattle.std.specs.Prelude.{◌≡◌, Err, IsErrOf};
ghost use Rattle.std.specs.Io.{ReadsAtMost};
ghost use Rattle.std.specs.Io.KnownBytes.{ReadConsumes};
ghost use Rattle.eip_text.specs.Causes.{Rises};
ghost use Rattle.eip_endpoint.specs.Counters.{risen};
ghost use Rattle.eip_line.specs.Links.{Wrote, link_failure};
ghost use Rattle.eip_host.specs.ReaderLinks.{untold_written, faults_behind};

use eip_frames::Target;
use eip_line::{Link, LinkFault};
use eip_uri::Uri;
use std::io::Read;

/// A link over a reader, as standard input is one, whatever the endpoint. Its bytes are those that the reader gives,
/// where these are known; there is nothing that it writes to.
#[derive(Drop)]
pub struct ReaderLink<R> {
    pub reader: R,
    /// How many calls failed.
    pub faults: u64,
}

impl<R: Read> ReaderLink<R> {
    /// The link over this reader. It takes no memory.
    pub fn new(reader: R) -> ReaderLink<R>
        ensures { result ≡ record { reader = reader; faults = 0 } }
    {
        ReaderLink { reader, faults: 0 }
    }

    /// Counts a fault.
    fn fail(&mut self) -> LinkFault
        ensures fault { result ≡ LinkFault.Failed }
        ensures rose { Rises 1 self.old.faults self.new.faults }
        ensures counted { self.new ≡ record self.old { faults = risen self.old.faults } }
    {
        self.faults = self.faults.saturating_add(1);
        LinkFault::Failed
    }
}

impl<R: Read> Link for ReaderLink<R> {
    ghost unread = { λ l. R.remaining l.reader };

    ghost written = { λ _. untold_written };

    ghost link_faults = { λ l. l.faults };

    /// Reads once from the reader. `Failed` comes where the reader answered an error, and is counted. `NoMemory` never
    /// comes.
    fn read(&mut self, _from: &Uri, piece: &mut [u8]) -> Result<usize, LinkFault>
        ensures bound { ReadsAtMost result piece.new }
        ensures bytes { ReadConsumes (R.remaining self.old.reader) (R.remaining self.new.reader) result piece.new }
        ensures written { untold_written ≡ untold_written }
        ensures faults { Rises (link_failure result) self.old.faults self.new.faults }
        ensures memory { ¬ (IsErrOf result LinkFault.NoMemory) }
        ensures counted { self.new.faults ≡ faults_behind result self.old.faults }
    {
        match self.reader.read(piece) {
            Ok(count) => Ok(count),
            Err(_) => Err(self.fail()),
        }
    }

    /// Fails, which is counted, since there is nothing to write to. The reader stays as it was.
    fn write(&mut self, _target: &Target, bytes: &[u8]) -> Result<(), LinkFault>
        ensures content { Wrote untold_written bytes.now result untold_written }
        ensures memory { IsErrOf result LinkFault.NoMemory → untold_written ≡ untold_written }
        ensures unread { R.remaining self.new.reader ≡ R.remaining self.old.reader }
        ensures faults { Rises (link_failure result) self.old.faults self.new.faults }
        ensures failed { result ≡ Err LinkFault.Failed }
        ensures counted { self.new ≡ record self.old { faults = risen self.old.faults } }
    {
        Err(self.fail())
    }
}
