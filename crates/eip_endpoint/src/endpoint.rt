ghost use Rattle.std.specs.Prelude.{◌≡◌, ℕ, List, Option, true, IsErrOf};
ghost use Rattle.eip_text.specs.Causes.{Rises};
ghost use Rattle.eip_frames.specs.Fits.{may_exist};
ghost use Rattle.eip_endpoint.specs.declared.endpoint.Call.{Call as ACall};
ghost use Rattle.eip_endpoint.specs.Content.{extended};
ghost use Rattle.eip_endpoint.specs.Calls.{made, failures};

use eip_exchange::Message;
use eip_frames::Target;
use thiserror::Error;

/// How a call of a lane came out.
#[derive(Clone, Copy, Debug, PartialEq, Eq)]
pub enum Outcome {
    /// The message was sent.
    Done,
    /// The lane failed.
    Failed,
    /// The file was there already.
    Exists,
}

/// One call of a lane.
#[derive(Drop)]
pub struct Call {
    pub target: Target,
    pub message: Message,
    pub outcome: Outcome,
}

/// Why a message was not sent.
#[derive(Clone, Copy, Debug, PartialEq, Eq, Error)]
pub enum SendFault {
    /// The lane failed, and its count of faults rose or stands at its greatest value.
    #[error("the lane failed")]
    Failed,
    /// The target is a file with `fileExist=Fail` that is there already (Camel manual, *File*).
    #[error("the file is there already")]
    Exists,
    /// There was no memory, and nothing was done.
    #[error("out of memory")]
    NoMemory,
}

/// A lane's object: an endpoint that messages are sent to (Hohpe and Woolf, *Message Endpoint*).
pub trait Endpoint: Send + Drop {
    /// The calls so far, where the object tells them.
    ghost calls: { Self → Option (List ACall) };

    /// The count of faults, which never falls.
    ghost lane_faults: { Self → ℕ };

    /// Sends a message to a target. `Failed` comes only where the count of faults rose in this call or stands
    /// at its greatest value, `Exists` only for a file that is not to be there.
    fn send(&mut self, target: &Target, message: &Message) -> Result<(), SendFault>
        ensures calls { calls self.new ≡ extended (calls self.old) (made target.now message.now result) }
        ensures faults { Rises (failures (made target.now message.now result)) (lane_faults self.old) (lane_faults self.new) }
        ensures exists { IsErrOf result SendFault.Exists → may_exist target.now ≡ true };
}

/// A box of an endpoint is one: a call goes to the object inside.
impl Endpoint for Box<dyn Endpoint> {
    ghost calls = { λ b. (Endpoint-box b).calls b.value };

    ghost lane_faults = { λ b. (Endpoint-box b).lane_faults b.value };

    fn send(&mut self, target: &Target, message: &Message) -> Result<(), SendFault> {
        (**self).send(target, message)
    }
}
