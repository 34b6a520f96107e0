ghost use Rattle.std.specs.Prelude.{◌≡◌, ◌+◌, ◌<◌, ◌^◌, ◌↔◌, List, [], ◌∷◌, OnOk, OnErr, Some, IsTrue};
ghost use Rattle.eip_join.specs.Parts.{Call, Began, PartEnded, Took, Stands, IsFree, AreNew, IsOpenPart, IsComplete, is_ready, ends_at};

use crate::maps::{end_part, index, is_complete, last_up_to, unindex};
use crate::open_join::OpenJoin;
use eip_exchange::Ended;
use eip_ordered::{put, take};
use eip_text::NoMemory;
use std::alloc::Global;
use std::collections::BTreeMap;
use std::marker::Model;

/// The fan-outs whose parts are awaited, by the number of the exchange that was cut, and how each part ended (Hohpe and
/// Woolf, *Splitter* and *Aggregator*; Camel manual, *Split EIP*). It stands for the list of its calls.
pub struct Joins {
    alloc: Global,
    joins: BTreeMap<u64, OpenJoin>,
    // Whose parts begin at a number, for each join that has parts.
    parents: BTreeMap<u64, u64>,
}

impl Drop for Joins {
    fn drop(self) {
        let Joins {
            alloc: _,
            joins,
            parents,
        } = self;
        drop(joins);
        drop(parents);
    }
}

impl Model for Joins {
    ghost use Rattle.std.specs.Prelude.{List, ℕ};
    ghost use Rattle.eip_join.specs.Parts.{Open, AreIndexed};

    ghost Value = { List (ℕ × Open) };

    ghost view = { λ j. j.joins.entries };

    ghost invariant = { λ j. AreIndexed j.joins.entries j.parents.entries };
}

impl Joins {
    /// No open join. It takes no memory.
    pub fn new(alloc: Global) -> Joins
        ensures { Stands [] result }
    {
        Joins {
            alloc,
            joins: BTreeMap::new(alloc),
            parents: BTreeMap::new(alloc),
        }
    }

    /// A join of `parent` opens over so many parts, with the numbers from `first` on, none of which has ended.
    pub fn begin(&mut self, parent: u64, first: u64, count: u32) -> Result<(), NoMemory>
        requires free { IsFree parent self.old }
        requires fits { first + count < 2 ^ 64 }
        requires apart { AreNew first count self.old }
        ensures ok { OnOk result ((calls : List Call) → Stands calls self.old → Stands (Began parent first count ∷ calls) self.new) }
        ensures err { OnErr result (self.new ≡ self.old) }
    {
        let join = OpenJoin::new(self.alloc, first, count)?;
        index(&mut self.parents, first, parent, count as usize)?;
        if let Err(refused) = put(&mut self.joins, parent, join) {
            unindex(&mut self.parents, first, count as usize);
            return Err(refused);
        }
        Ok(())
    }

    /// A part of an open join has ended so. It takes no memory.
    pub fn part_ended(&mut self, number: u64, ended: Ended)
        requires { IsOpenPart number self.old }
        ensures { (calls : List Call) → Stands calls self.old → Stands (PartEnded number ended ∷ calls) self.new }
    {
        let Some((first, parent)) = last_up_to(&self.parents, number) else {
            unreachable!()
        };
        end_part(&mut self.joins, parent, (number - first) as usize, ended);
    }

    /// Whether `parent` has an open join and all its parts have ended. It takes no memory.
    pub fn ready(&self, parent: u64) -> bool
        ensures ready { (calls : List Call) → Stands calls self.now → result ≡ is_ready calls parent }
        ensures complete { IsTrue result ↔ IsComplete parent self.now }
    {
        is_complete(&self.joins, parent)
    }

    /// Closes the join of `parent`, whose parts have all ended, and hands out how they ended, by index. It takes no
    /// memory.
    pub fn take(&mut self, parent: u64) -> Vec<Ended>
        requires { IsComplete parent self.old }
        ensures ends { (calls : List Call) → Stands calls self.old → ends_at calls parent ≡ Some result.items }
        ensures stands { (calls : List Call) → Stands calls self.old → Stands (Took parent ∷ calls) self.new }
    {
        let Some(join) = take(&mut self.joins, parent) else {
            unreachable!()
        };
        unindex(&mut self.parents, join.first(), join.count());
        join.into_ends()
    }
}
