ghost use Rattle.std.specs.Prelude.{◌≡◌, ◌<◌, length, List, Some, true, IfSome, IsErrOf, slice_get};
ghost use Rattle.eip_frames.specs.Fits.{may_exist};
ghost use Rattle.eip_endpoint.specs.Calls.{made};
ghost use Rattle.eip_endpoint.specs.Lanes.{LaneView, LanesGrew, at_lane, first_named, lane_names, lane_views};

use crate::endpoint::{Endpoint, SendFault};
use eip_exchange::Message;
use eip_frames::Target;
use eip_text::Text;

/// An endpoint that is handed in under a name.
#[derive(Drop)]
pub struct Lane<E> {
    pub name: Text,
    pub object: E,
}

/// Endpoints under names, in a row: the lanes that a run may send on.
pub trait Lanes {
    /// What contracts see of the lanes: the name of each, its calls and its count of faults.
    ghost views: { Self → List LaneView };

    /// How many there are.
    fn count(&self) -> usize
        ensures { result ≡ length (views self.now) };

    /// The name of the lane with this index, from 0.
    fn name_at(&self, index: usize) -> &Text
        requires { index < length (views self.now) }
        ensures { slice_get (lane_names (views self.now)) index ≡ Some result.now };

    /// Sends on the lane with this index, from 0. The call is behind that lane's, and the other lanes are as before.
    fn send_at(&mut self, index: usize, target: &Target, message: &Message) -> Result<(), SendFault>
        requires { index < length (views self.old) }
        ensures grew { LanesGrew 0 (at_lane index (made target.now message.now result)) (views self.old) (views self.new) }
        ensures exists { IsErrOf result SendFault.Exists → may_exist target.now ≡ true };
}

impl<E: Endpoint> Lanes for Vec<Lane<E>> {
    ghost views = { λ v. lane_views E.Endpoint v.items };

    fn count(&self) -> usize {
        self.len()
    }

    fn name_at(&self, index: usize) -> &Text {
        let lanes = self.as_slice();
        &lanes[index].name
    }

    fn send_at(
        &mut self,
        index: usize,
        target: &Target,
        message: &Message,
    ) -> Result<(), SendFault> {
        let lane = &mut self[index];
        lane.object.send(target, message)
    }
}

/// The index of the first lane of a name, from 0; None exactly where no lane has it.
pub fn find_lane<L: Lanes>(lanes: &L, name: &[u8]) -> Option<usize>
    ensures first { result ≡ first_named name.now (lane_names (L.views lanes.now)) }
    ensures within { IfSome result (λ k. k < length (L.views lanes.now)) }
{
    for index in 0..lanes.count() {
        if lanes.name_at(index).bytes() == name {
            return Some(index);
        }
    }
    None
}
