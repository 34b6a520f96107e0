ghost use Rattle.std.specs.Prelude.{◌≡◌, ◌<◌, ℕ, [], true, false, length, map, IfOk, OnOk, IfErr, OnErr, IsSome, IfNone, MatchOption, Some, None};
ghost use Rattle.std.specs.Ordering.{nat_cmp};
ghost use Rattle.std.specs.BTreeMap.{get};
ghost use Rattle.std.specs.List.{All, list_any, slice_get};
ghost use Rattle.std.specs.List.Sorted.{IsStrictlySortedBy};
ghost use Rattle.indexmap.specs.IndexMap.{spare};
ghost use Rattle.eip_strategy.specs.Adding.{IsReady};
ghost use Rattle.eip_ordered.specs.Numbered.{value_at, Puts};
ghost use Rattle.eip_aggregator.specs.Arrivals.{Group, is_at_most};
ghost use Rattle.eip_aggregator.specs.Tables.{IsFree, IsOf, IsLeastDue, Times, Forgets, Indexes, count_in, message_in, GrowsAt, IsRefused, IsDueOf, IsBeyond, IsNext, ArePicked, is_by, due_number, is_forced, group_number, ArePassing};

use crate::closed::ArriveFault;
use crate::group::{KeptGroup, due_behind};
use crate::key::GroupKey;
use eip_exchange::Message;
use eip_frames::Completion;
use eip_ordered::{put, take};
use eip_route::Aggregate;
use eip_text::{NoMemory, Text};
use indexmap::IndexMap;
use std::alloc::Global;
use std::collections::{BTreeMap, BTreeSet};
use std::marker::Model;
use std::ops::Bound;

/// The open groups by number, each of which is found by its key and by the moment at which it is due.
#[derive(Drop)]
pub struct Places {
    groups: BTreeMap<u64, KeptGroup>,
    numbers: IndexMap<GroupKey, u64>,
    // The moment and the number of each group with a timeout.
    dues: BTreeSet<(u64, u64)>,
}

impl Model for Places {
    ghost use Rattle.std.specs.Prelude.{List, ℕ};
    ghost use Rattle.eip_aggregator.specs.Arrivals.{Group};
    ghost use Rattle.eip_aggregator.specs.Tables.{AreFound};

    ghost Value = { List (ℕ × Group) };

    ghost view = { λ p. p.groups.entries };

    ghost invariant = { λ p. AreFound p.groups.entries p.numbers.entries p.dues.keys };
}

impl Places {
    /// No open group, without memory.
    pub fn new(alloc: Global) -> Places
        ensures { result ≡ [] }
    {
        Places {
            groups: BTreeMap::new(alloc),
            numbers: IndexMap::new(alloc),
            dues: BTreeSet::new(alloc),
        }
    }

    /// How many groups are open.
    pub fn len(&self) -> usize
        ensures len { result ≡ length self.now }
        ensures rising { IsStrictlySortedBy nat_cmp (map (λ (e : ℕ × Group). e.0) self.now) }
    {
        self.groups.len()
    }

    /// The number of the open group of this key.
    pub fn find(&self, key: &GroupKey) -> Option<u64>
        ensures { MatchOption result (IsFree self.now key.now) (IsOf self.now key.now) }
    {
        let number = self.numbers.get(key)?;
        Some(*number)
    }

    /// The first moment at which a group is due.
    pub fn due(&self) -> Option<u64>
        ensures { IsLeastDue self.now result }
    {
        let first = self.dues.first()?;
        Some(first.0)
    }

    /// A new group is open under this number.
    pub fn open(&mut self, number: u64, group: KeptGroup) -> Result<(), NoMemory>
        requires number { value_at self.old number ≡ None }
        requires key { IsFree self.old group.key }
        ensures ok { OnOk result (Puts self.old self.new number (Some group)) }
        ensures err { OnErr result (self.new ≡ self.old) }
    {
        let key = group.key().copy()?;
        let due = group.due();
        make_room(&mut self.numbers)?;
        add_due(&mut self.dues, due, number)?;
        if let Err(refused) = put(&mut self.groups, number, group) {
            remove_due(&mut self.dues, due, number);
            return Err(refused);
        }
        insert_number(&mut self.numbers, key, number);
        Ok(())
    }

    /// The open group of this number takes one more part in, which came from the exchange `from` in this route, with so many
    /// hops and at this moment. It is answered what closes the group with it. On a fault all stays as it was.
    pub fn grow(
        &mut self,
        alloc: Global,
        setting: &Aggregate,
        number: u64,
        part: &Message,
        hops: u32,
        from: u64,
        route: &Text,
        tick: u64,
    ) -> Result<Option<Completion>, ArriveFault>
        requires there { IsSome (value_at self.old number) }
        requires ready { IsReady setting.now.strategy (message_in (value_at self.old number)) }
        requires fits { count_in (value_at self.old number) < 18446744073709551615 }
        ensures ok { IfOk result (λ cause. GrowsAt setting.now (record { number = from; route = route.now; hops = hops; at = tick; message = part.now }) number self.old self.new cause) }
        ensures fault { IfErr result (λ e. IsRefused setting.now part.now hops tick (value_at self.old number) e) }
        ensures err { OnErr result (self.new ≡ self.old) }
    {
        let due = due_behind(tick, setting.timeout);
        let old = due_of(&self.groups, number);
        add_due(&mut self.dues, due, number)?;
        let groups = &mut self.groups;
        match grow_group(
            groups, alloc, setting, number, part, hops, from, route, tick,
        ) {
            Ok(cause) => {
                forget_due(&mut self.dues, old, due, number);
                Ok(cause)
            }
            Err(fault) => {
                forget_due(&mut self.dues, due, old, number);
                Err(fault)
            }
        }
    }

    /// The group of this number, where it is open; it is open no more. It takes no memory.
    pub fn close(&mut self, number: u64) -> Option<KeptGroup>
        ensures group { result ≡ value_at self.old number }
        ensures rest { Puts self.old self.new number None }
    {
        let group = take(&mut self.groups, number)?;
        remove_number(&mut self.numbers, group.key());
        remove_due(&mut self.dues, group.due(), number);
        Some(group)
    }
}

impl Places {
    /// The numbers of the groups that are due at this tick.
    pub fn due_numbers(&self, alloc: Global, tick: u64) -> Result<BTreeSet<u64>, NoMemory>
        ensures { IfOk result (λ numbers. ArePassing (λ g. is_at_most g.due tick) self.now numbers) }
    {
        numbers_due(alloc, &self.dues, tick)
    }

    /// The numbers of the groups that may be forced to close.
    pub fn forced_numbers(&self, alloc: Global) -> Result<BTreeSet<u64>, NoMemory>
        ensures { IfOk result (λ numbers. ArePassing (λ g. g.force) self.now numbers) }
    {
        numbers_forced(alloc, &self.groups)
    }

    /// Whether a group may be forced to close.
    pub fn any_forced(&self) -> bool
        ensures { result ≡ list_any is_forced self.now }
    {
        any_forced(&self.groups)
    }

    /// The open group with this index from 0, by the numbers, with its number.
    pub fn at(&self, k: usize) -> Option<(u64, &KeptGroup)>
        ensures shown { MatchOption result (slice_get self.now k ≡ None) (λ e. slice_get self.now k ≡ Some (e.0, e.1.now)) }
        ensures rising { IsStrictlySortedBy nat_cmp (map (λ (e : ℕ × Group). e.0) self.now) }
    {
        let (number, group) = self.groups.iter().nth(k)?;
        Some((*number, group))
    }

    /// The first open group whose number is greater than this one, with its own number.
    pub fn next_behind(&self, number: u64) -> Option<(u64, &KeptGroup)>
        ensures { MatchOption result (IsBeyond self.now number) (λ e. IsNext self.now number (e.0, e.1.now)) }
    {
        entry_behind(&self.groups, number)
    }
}

/// The first entry whose number is greater than this one.
fn entry_behind(groups: &BTreeMap<u64, KeptGroup>, number: u64) -> Option<(u64, &KeptGroup)>
    ensures { MatchOption result (IsBeyond groups.now.entries number) (λ e. IsNext groups.now.entries number (e.0, e.1.now)) }
{
    let behind = (Bound::Excluded(number), Bound::Unbounded);
    let (next, group) = groups.range(behind).next()?;
    Some((*next, group))
}

/// The numbers that stand with this moment or a sooner one.
fn numbers_due(
    alloc: Global,
    dues: &BTreeSet<(u64, u64)>,
    tick: u64,
) -> Result<BTreeSet<u64>, NoMemory>
    ensures { IfOk result (ArePicked (is_by tick) due_number dues.now.keys) }
{
    let mut numbers = BTreeSet::new(alloc);
    for due in dues.iter() {
        if due.0 > tick {
            return Ok(numbers);
        }
        numbers.insert(due.1)?;
    }
    Ok(numbers)
}

/// The numbers of the groups that may be forced to close.
fn numbers_forced(
    alloc: Global,
    groups: &BTreeMap<u64, KeptGroup>,
) -> Result<BTreeSet<u64>, NoMemory>
    ensures picked { IfOk result (ArePicked is_forced group_number groups.now.entries) }
    ensures found { All (λ e. get nat_cmp groups.now e.0 ≡ Some e.1) groups.now.entries }
{
    let mut numbers = BTreeSet::new(alloc);
    for (number, group) in groups.iter() {
        if group.is_forced() {
            numbers.insert(*number)?;
        }
    }
    Ok(numbers)
}

/// Whether a group may be forced to close.
fn any_forced(groups: &BTreeMap<u64, KeptGroup>) -> bool
    ensures { result ≡ list_any is_forced groups.now.entries }
{
    for (number, group) in groups.iter() {
        let _ = number;
        if group.is_forced() {
            return true;
        }
    }
    false
}

/// When the group of this number is due.
fn due_of(groups: &BTreeMap<u64, KeptGroup>, number: u64) -> Option<u64>
    requires { IsSome (value_at groups.now.entries number) }
    ensures { IsDueOf result (value_at groups.now.entries number) }
{
    match groups.get(&number) {
        Some(group) => group.due(),
        None => unreachable!(),
    }
}

/// The group of this number takes one more part in.
fn grow_group(
    groups: &mut BTreeMap<u64, KeptGroup>,
    alloc: Global,
    setting: &Aggregate,
    number: u64,
    part: &Message,
    hops: u32,
    from: u64,
    route: &Text,
    tick: u64,
) -> Result<Option<Completion>, ArriveFault>
    requires there { IsSome (value_at groups.old.entries number) }
    requires ready { IsReady setting.now.strategy (message_in (value_at groups.old.entries number)) }
    requires fits { count_in (value_at groups.old.entries number) < 18446744073709551615 }
    ensures ok { IfOk result (λ cause. GrowsAt setting.now (record { number = from; route = route.now; hops = hops; at = tick; message = part.now }) number groups.old.entries groups.new.entries cause) }
    ensures fault { IfErr result (λ e. IsRefused setting.now part.now hops tick (value_at groups.old.entries number) e) }
    ensures err { OnErr result (groups.new.entries ≡ groups.old.entries) }
{
    match groups.get_mut(&number) {
        Some(group) => group.grow(alloc, setting, part, hops, from, route, tick),
        None => unreachable!(),
    }
}

fn make_room(numbers: &mut IndexMap<GroupKey, u64>) -> Result<(), NoMemory>
    ensures same { numbers.new.entries ≡ numbers.old.entries }
    ensures room { OnOk result (0 < spare numbers.new) }
{
    numbers.reserve(1)?;
    Ok(())
}

/// A key's group has this number. It takes no memory where there is room.
fn insert_number(numbers: &mut IndexMap<GroupKey, u64>, key: GroupKey, number: u64)
    requires { 0 < spare numbers.old }
    ensures { Indexes numbers.old.entries numbers.new.entries key (Some number) }
{
    match numbers.insert(key, number) {
        Ok(_) => {}
        Err(_) => unreachable!(),
    }
}

fn remove_number(numbers: &mut IndexMap<GroupKey, u64>, key: &GroupKey)
    ensures { Indexes numbers.old.entries numbers.new.entries key.now None }
{
    numbers.swap_remove(key);
}

/// A group is due at a moment, where there is one.
fn add_due(dues: &mut BTreeSet<(u64, u64)>, due: Option<u64>, number: u64) -> Result<(), NoMemory>
    ensures ok { OnOk result (Times dues.old.keys dues.new.keys due number true) }
    ensures err { OnErr result (dues.new.keys ≡ dues.old.keys) }
{
    if let Some(due) = due {
        dues.insert((due, number))?;
    }
    Ok(())
}

fn remove_due(dues: &mut BTreeSet<(u64, u64)>, due: Option<u64>, number: u64)
    ensures { Times dues.old.keys dues.new.keys due number false }
{
    if let Some(due) = due {
        dues.remove(&(due, number));
    }
}

/// A group is due no more at its old moment, unless the new one is the same.
#[tactic(auto, using(crate::proofs::Found::forgets, crate::proofs::Found::forgets_none))]
fn forget_due(dues: &mut BTreeSet<(u64, u64)>, old: Option<u64>, new: Option<u64>, number: u64)
    ensures { Forgets dues.old.keys dues.new.keys old new number }
{
    if old != new {
        remove_due(dues, old, number);
    }
}
