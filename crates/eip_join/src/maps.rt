ghost use Rattle.std.specs.Prelude.{◌≡◌, ◌≤◌, ℕ, OnOk, OnErr, Some, None, is_some, option_map};
ghost use Rattle.eip_ordered.specs.Numbered.{value_at, Puts};
ghost use Rattle.eip_join.specs.Parts.{complete, with_end, Indexes, Unindexes, IsLastUpTo, IsUnended};

use crate::open_join::OpenJoin;
use eip_exchange::Ended;
use eip_ordered::{put, take};
use eip_text::NoMemory;
use std::collections::BTreeMap;

/// Whether a parent has a join whose parts have all ended.
pub fn is_complete(joins: &BTreeMap<u64, OpenJoin>, parent: u64) -> bool
    ensures { result ≡ is_some (complete (value_at joins.now.entries parent)) }
{
    match joins.get(&parent) {
        Some(join) => join.is_complete(),
        None => false,
    }
}

/// The part of this index in a parent's join has ended so.
pub fn end_part(joins: &mut BTreeMap<u64, OpenJoin>, parent: u64, index: usize, ended: Ended)
    requires { IsUnended index (value_at joins.old.entries parent) }
    ensures { Puts joins.old.entries joins.new.entries parent (option_map (with_end index ended) (value_at joins.old.entries parent)) }
{
    match joins.get_mut(&parent) {
        Some(join) => join.end(index, ended),
        None => unreachable!(),
    }
}

/// Tells whose parts begin at a number, where there are parts.
pub fn index(
    parents: &mut BTreeMap<u64, u64>,
    first: u64,
    parent: u64,
    count: usize,
) -> Result<(), NoMemory>
    ensures ok { OnOk result (Indexes parents.old.entries parents.new.entries first parent count) }
    ensures err { OnErr result (parents.new.entries ≡ parents.old.entries) }
{
    if count > 0 {
        put(parents, first, parent)?;
    }
    Ok(())
}

/// Forgets whose parts begin at a number, where there are parts.
pub fn unindex(parents: &mut BTreeMap<u64, u64>, first: u64, count: usize)
    ensures { Unindexes parents.old.entries parents.new.entries first count }
{
    if count > 0 {
        let _ = take(parents, first);
    }
}

/// The last number at which parts begin, not above this one, and whose parts they are.
pub fn last_up_to(parents: &BTreeMap<u64, u64>, number: u64) -> Option<(u64, u64)>
    ensures { IsLastUpTo number parents.now.entries result }
{
    let (first, parent) = parents.range(..=number).next_back()?;
    Some((*first, *parent))
}
