ghost use Rattle.std.specs.Prelude.{◌≡◌, ◌<◌, length, List, Some, IfOk, IfSome, slice_get};
ghost use Rattle.eip_uri.specs.Printed.{printed};
ghost use Rattle.eip_endpoint.specs.Pulls.{IsFair};
ghost use Rattle.eip_endpoint.specs.Lanes.{first_named};
ghost use Rattle.eip_endpoint.specs.Inlets.{InletView, InletsGrew, acts_at, acts_of_pull, acts_of_commit, inlet_names, inlet_views};

use crate::source::{CommitFault, PullFault, Pulled, Source};
use eip_exchange::End;
use eip_text::Text;
use eip_uri::Uri;

/// A source that is handed in under a name.
#[derive(Drop)]
pub struct Inlet<S> {
    pub name: Text,
    pub object: S,
}

/// Sources under names, in a row: the inlets that a run may pull from.
pub trait Inlets {
    /// What contracts see of the inlets: the name of each, what it tells for each URI and its count of faults.
    ghost views: { Self → List InletView };

    /// How many there are.
    fn count(&self) -> usize
        ensures { result ≡ length (views self.now) };

    /// The name of the inlet with this index, from 0.
    fn name_at(&self, index: usize) -> &Text
        requires { index < length (views self.now) }
        ensures { slice_get (inlet_names (views self.now)) index ≡ Some result.now };

    /// Pulls from the inlet with this index, from 0. The other inlets are as before.
    fn pull_at(&mut self, index: usize, from: &Uri) -> Result<Pulled, PullFault>
        requires { index < length (views self.old) }
        ensures grew { InletsGrew 0 (acts_at index (printed from.now) (acts_of_pull result)) (views self.old) (views self.new) }
        ensures fair { IfOk result IsFair };

    /// Tells the inlet with this index, from 0, how the exchange of an item ended. The other inlets are as before.
    fn commit_at(
        &mut self,
        index: usize,
        from: &Uri,
        item: &Text,
        end: &End,
    ) -> Result<(), CommitFault>
        requires { index < length (views self.old) }
        ensures grew { InletsGrew 0 (acts_at index (printed from.now) (acts_of_commit item.now end.now result)) (views self.old) (views self.new) };
}

impl<S: Source> Inlets for Vec<Inlet<S>> {
    ghost views = { λ v. inlet_views S.Source v.items };

    fn count(&self) -> usize {
        self.len()
    }

    fn name_at(&self, index: usize) -> &Text {
        let inlets = self.as_slice();
        &inlets[index].name
    }

    fn pull_at(&mut self, index: usize, from: &Uri) -> Result<Pulled, PullFault> {
        let inlet = &mut self[index];
        inlet.object.pull(from)
    }

    fn commit_at(
        &mut self,
        index: usize,
        from: &Uri,
        item: &Text,
        end: &End,
    ) -> Result<(), CommitFault> {
        let inlet = &mut self[index];
        inlet.object.commit(from, item, end)
    }
}

/// The index of the first inlet of a name, from 0; None exactly where no inlet has it.
pub fn find_inlet<I: Inlets>(inlets: &I, name: &[u8]) -> Option<usize>
    ensures first { result ≡ first_named name.now (inlet_names (I.views inlets.now)) }
    ensures within { IfSome result (λ k. k < length (I.views inlets.now)) }
{
    for index in 0..inlets.count() {
        if inlets.name_at(index).bytes() == name {
            return Some(index);
        }
    }
    None
}
