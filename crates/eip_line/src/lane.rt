ghost use Rattle.std.specs.Prelude.{◌≡◌, ◌++◌, ◌∷◌, [], true, IfOk, IsErrOf};
ghost use Rattle.eip_text.specs.Causes.{Rises};
ghost use Rattle.eip_frames.specs.Fits.{may_exist};
ghost use Rattle.eip_endpoint.specs.Content.{extended};
ghost use Rattle.eip_endpoint.specs.Calls.{made, failures};
ghost use Rattle.eip_line.specs.Links.{Wrote};
ghost use Rattle.eip_line.specs.Lanes.{untold_calls, line_of};

use crate::link::{Link, LinkFault};
use eip_endpoint::{Endpoint, SendFault};
use eip_exchange::Message;
use eip_frames::Target;
use eip_text::NoMemory;
use std::alloc::Global;

/// The line of a body: the body and an LF, in one piece.
fn line_of(alloc: Global, body: &[u8]) -> Result<Vec<u8>, NoMemory>
    ensures { IfOk result (λ line. line.items ≡ line_of body.now) }
{
    let mut line = Vec::new(alloc);
    line.extend_from_slice(body)?;
    line.push(b'\n')?;
    Ok(line)
}

/// A lane that sends each message as one line: its body and an LF, by one write. It tells no calls.
#[derive(Drop)]
pub struct LineLane<L> {
    pub alloc: Global,
    pub link: L,
}

impl<L: Link> LineLane<L> {
    /// The lane that writes to this link.
    pub fn new(alloc: Global, link: L) -> LineLane<L>
        ensures { result.link ≡ link }
    {
        LineLane { alloc, link }
    }
}

impl<L: Link + Send + Drop> Endpoint for LineLane<L> {
    ghost calls = { λ _. untold_calls };

    ghost lane_faults = { λ l. L.link_faults l.link };

    /// Writes the body and an LF. `Failed` comes only where the link failed; the front of the line may be written
    /// then. `Exists` never comes.
    fn send(&mut self, target: &Target, message: &Message) -> Result<(), SendFault>
        ensures calls { untold_calls ≡ extended untold_calls (made target.now message.now result) }
        ensures faults { Rises (failures (made target.now message.now result)) (L.link_faults self.old.link) (L.link_faults self.new.link) }
        ensures exists { IsErrOf result SendFault.Exists → may_exist target.now ≡ true }
        ensures never_exists { ¬ (IsErrOf result SendFault.Exists) }
        ensures wrote { Wrote (L.written self.old.link) (line_of message.now.body) result (L.written self.new.link) }
        ensures memory { IsErrOf result SendFault.NoMemory → L.written self.new.link ≡ L.written self.old.link }
        ensures unread { L.unread self.new.link ≡ L.unread self.old.link }
    {
        let Ok(line) = line_of(self.alloc, message.body.bytes()) else {
            return Err(SendFault::NoMemory);
        };
        match self.link.write(target, line.as_slice()) {
            Ok(()) => Ok(()),
            Err(LinkFault::Failed) => Err(SendFault::Failed),
            Err(LinkFault::NoMemory) => Err(SendFault::NoMemory),
        }
    }
}
