#![tactic(auto, using(crate::proofs::Objects::trees))]

ghost use Rattle.std.specs.Prelude.{◌≡◌, ◌++◌, ◌∷◌, [], IfOk, OnOk};
ghost use Rattle.eip_text.specs.Json.{json};
ghost use Rattle.eip_route.specs.Nest.{rest_of};
ghost use Rattle.eip_route_canonical.specs.Canonical as spec;
ghost use Rattle.eip_route_canonical.specs.Trees as trees;

use eip_text::{NoMemory, Series, Tree};
use std::alloc::Global;
use std::collections::VecDeque;

/// The printed steps of a step's blocks: a group for each block, in the order of the blocks.
#[derive(Drop)]
pub struct Groups {
    alloc: Global,
    groups: VecDeque<Series<Tree>>,
}

impl Groups {
    /// No groups.
    pub fn new(alloc: Global) -> Groups
        ensures { trees.left result ≡ [] }
    {
        Groups {
            alloc,
            groups: VecDeque::new(alloc),
        }
    }

    /// One more group, the last.
    pub fn push(&mut self, steps: Vec<Tree>) -> Result<(), NoMemory>
        ensures { OnOk result (trees.left self.new ≡ trees.left self.old ++ trees.values_of steps.items ∷ []) }
    {
        self.groups.push_back(Series::of(steps))?;
        Ok(())
    }

    /// The steps of the first group, which goes. There are none where no group is left.
    pub fn next_steps(&mut self) -> Vec<Tree>
        ensures steps { trees.values_of result.items ≡ spec.first_json (trees.left self.old) }
        ensures rest { trees.left self.new ≡ rest_of (trees.left self.old) }
    {
        match self.groups.pop_front() {
            Some(steps) => steps.into_vec(),
            None => Vec::new(self.alloc),
        }
    }

    /// The list of the steps of the first group, which goes.
    pub fn next_list(&mut self) -> Tree
        ensures steps { json result ≡ spec.list_of (spec.first_json (trees.left self.old)) }
        ensures rest { trees.left self.new ≡ rest_of (trees.left self.old) }
    {
        Tree::List(Series::of(self.next_steps()))
    }

    /// The list of the steps of all groups, one behind the other.
    #[tactic(auto, using(crate::proofs::Objects::trees, crate::proofs::Loops::group_taken))]
    pub fn all(self) -> Result<Tree, NoMemory>
        ensures { IfOk result (λ t. json t ≡ spec.list_of (spec.all_json (trees.left self))) }
    {
        let mut groups = self.groups;
        let mut items = Vec::new(self.alloc);
        while let Some(steps) = groups.pop_front() {
            let mut steps = steps.into_vec();
            items.append(&mut steps)?;
        }
        Ok(Tree::List(Series::of(items)))
    }
}
