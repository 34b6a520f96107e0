ghost use Rattle.std.specs.Prelude.{◌≡◌, ◌<◌, ◌≤◌, ◌++◌, [], length, IfOk, IsSome, Some, None, is_some, slice_get, vec_len, vec_capacity, option_to_list};
ghost use Rattle.eip_join.specs.Parts.{all_of, new_join, no_ends, with_end};

use eip_exchange::Ended;
use eip_text::NoMemory;
use std::alloc::Global;
use std::collections::VecDeque;
use std::marker::Model;
use std::mem;

/// The parts of one fan-out, by index: how those that have ended did.
#[derive(Drop)]
pub struct OpenJoin {
    // The number of the part of index 0.
    first: u64,
    // How many haven't ended.
    left: usize,
    ends: Vec<Option<Ended>>,
    // Room for all ends, so that handing them out takes no memory.
    room: Vec<Ended>,
}

impl Model for OpenJoin {
    ghost use Rattle.std.specs.Prelude.{◌≡◌, ◌≤◌, [], length, vec_capacity};
    ghost use Rattle.eip_join.specs.Parts.{Open, left_of};

    ghost Value = { Open };

    ghost view = { λ j. record { first = j.first; ends = j.ends.items } };

    ghost invariant = { λ j. (j.left ≡ left_of j.ends.items) × (j.room.items ≡ []) × (length j.ends.items ≤ vec_capacity j.room) };
}

impl OpenJoin {
    /// None of these parts has ended.
    pub fn new(alloc: Global, first: u64, count: u32) -> Result<OpenJoin, NoMemory>
        ensures { IfOk result (λ j. j ≡ new_join first count) }
    {
        let left = count as usize;
        let ends = none_ended(alloc, left)?;
        let room = Vec::with_capacity(alloc, left)?;
        Ok(OpenJoin {
            first,
            left,
            ends,
            room,
        })
    }

    /// The number of the part of index 0.
    pub fn first(&self) -> u64
        ensures { result ≡ self.now.first }
    {
        self.first
    }

    /// How many parts there are.
    pub fn count(&self) -> usize
        ensures { result ≡ length self.now.ends }
    {
        self.ends.len()
    }

    /// The part of this index has ended so.
    pub fn end(&mut self, index: usize, ended: Ended)
        requires { slice_get self.old.ends index ≡ Some None }
        ensures { self.new ≡ with_end index ended self.old }
    {
        drop(mem::replace(&mut self.ends[index], Some(ended)));
        self.left -= 1;
    }

    /// Whether all parts have ended.
    pub fn is_complete(&self) -> bool
        ensures { result ≡ is_some (all_of self.now.ends) }
    {
        self.left == 0
    }

    /// The ends of all parts, by index.
    pub fn into_ends(self) -> Vec<Ended>
        requires { IsSome (all_of self.ends) }
        ensures { all_of self.ends ≡ Some result.items }
    {
        gathered(self.ends, self.room)
    }
}

/// As many parts that haven't ended.
fn none_ended(alloc: Global, count: usize) -> Result<Vec<Option<Ended>>, NoMemory>
    ensures { IfOk result (λ v. v.items ≡ no_ends count) }
{
    let mut ends = Vec::with_capacity(alloc, count)?;
    for _index in 0..count {
        ends.push(None)?;
    }
    Ok(ends)
}

/// The ends of parts that have all ended, moved into room that is there.
fn gathered(ends: Vec<Option<Ended>>, mut room: Vec<Ended>) -> Vec<Ended>
    requires empty { room.items ≡ [] }
    requires spare { length ends.items ≤ vec_capacity room }
    requires complete { IsSome (all_of ends.items) }
    ensures { all_of ends.items ≡ Some result.items }
{
    let mut rest = VecDeque::from_vec(ends);
    while let Some(end) = rest.pop_front() {
        add(&mut room, end);
    }
    room
}

/// An end goes behind the others, into room that is there.
fn add(room: &mut Vec<Ended>, end: Option<Ended>)
    requires { vec_len room.old < vec_capacity room.old }
    ensures items { room.new.items ≡ room.old.items ++ option_to_list end }
    ensures spare { vec_capacity room.old ≤ vec_capacity room.new }
{
    if let Some(ended) = end {
        drop(room.push(ended));
    }
}
