ghost use Rattle.std.specs.Prelude.{◌≡◌};
ghost use Rattle.eip_frames.specs.Fits.{fits, is_outside, may_exist, is_fail};

use crate::answer::Answer;
use crate::request::{Request, Target};
use eip_text::is_name;
use eip_uri::Exist;

/// Whether an answer may follow a request. It takes no memory.
pub fn fits(request: &Request, answer: &Answer) -> bool
    ensures { result ≡ fits request.now answer.now }
{
    match (request, answer) {
        (Request::Send { .. }, Answer::Done | Answer::SendFailed) => true,
        (Request::Send { target, .. }, Answer::Exists) => may_exist(target),
        (Request::Process { .. }, Answer::Became(_)) => true,
        (Request::Process { .. }, Answer::Raised(fault)) => is_name(fault.get().kind.bytes()),
        (Request::Test { .. }, Answer::Holds(_)) => true,
        (Request::Offer { .. }, Answer::Queued(_)) => true,
        (Request::Offer { discard, .. }, Answer::Full(_)) => !discard,
        (Request::Offer { discard, .. }, Answer::Dropped) => *discard,
        (Request::Call { .. }, Answer::Entered) => true,
        (Request::Spawn { parts }, Answer::Born { count, .. }) => {
            *count as usize == parts.items().len()
        }
        (Request::Join { count, .. }, Answer::Joined(parts)) => {
            parts.items().len() == *count as usize
        }
        (Request::Arrive { .. }, Answer::Arrived(_) | Answer::Closed { .. } | Answer::Unfit(_)) =>
            true,
        (Request::Idem { .. }, Answer::Fresh | Answer::Duplicate(_)) => true,
        (Request::Wait { .. }, Answer::Slept(_)) => true,
        (Request::Log { .. }, Answer::Noted) => true,
        (Request::Finish { .. }, Answer::Finished) => true,
        (Request::Finish { commit, .. }, Answer::CommitFailed) => *commit,
        _ => false,
    }
}

/// Whether a request is answered by a lane, a processor, a predicate or a source's commit. It takes no memory.
pub fn is_outside(request: &Request) -> bool
    ensures { result ≡ is_outside request.now }
{
    match request {
        Request::Send { .. } | Request::Process { .. } | Request::Test { .. } => true,
        Request::Finish { commit, .. } => *commit,
        _ => false,
    }
}

/// Whether a target may answer that its file is there: a file with `fileExist=Fail`.
pub fn may_exist(target: &Target) -> bool
    ensures { result ≡ may_exist target.now }
{
    match target {
        Target::File { exist, .. } => *exist == Exist::Fail,
        _ => false,
    }
}
