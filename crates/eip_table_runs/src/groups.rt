ghost use Rattle.std.specs.Prelude.{◌+◌, ◌<◌, ◌^◌, OnOk};
ghost use Rattle.eip_table_runs.specs.Arriving.{AreOf};

use eip_aggregator::{ArriveFault, Arrived, Closed, Groups};
use eip_exchange::{Message, Strategy};
use eip_route::{Aggregate, Expr};
use eip_simple_read::Predicate;
use eip_text::{NoMemory, Text, decimal};
use std::alloc::Global;

/// An aggregator whose groups are joined with commas, and close where a predicate holds, with so many parts or so long behind
/// the last.
pub fn aggregator(
    alloc: Global,
    predicate: Option<Predicate>,
    size: Option<u32>,
    timeout: Option<u64>,
) -> Result<Aggregate, NoMemory> {
    Ok(Aggregate {
        key: Expr::Constant(Text::of_str(alloc, "k")?),
        strategy: Strategy::Joined(Text::of_str(alloc, ",")?),
        predicate,
        size,
        timeout,
        force: true,
        block: 7,
    })
}

/// No group of such an aggregator is open.
pub fn no_groups(alloc: Global, _setting: &Aggregate) -> Groups
    ensures { AreOf _setting.now 0 result }
{
    Groups::new(alloc)
}

/// An exchange comes with this key and body at this moment, behind at most so many calls.
pub fn arrive(
    alloc: Global,
    groups: &mut Groups,
    setting: &Aggregate,
    key: &str,
    body: &str,
    tick: u64,
    most: u64,
) -> Result<Arrived, ArriveFault>
    requires of { AreOf setting.now most groups.old }
    requires few { most < 2 ^ 32 }
    ensures { OnOk result (AreOf setting.now (most + 1) groups.new) }
{
    let key = Text::of_str(alloc, key)?;
    let part = Message::of_body(alloc, Text::of_str(alloc, body)?);
    let route = Text::of_str(alloc, "r")?;
    groups.arrive(setting, &key, &part, 0, most, &route, tick)
}

/// The groups that are due at this tick close, behind at most so many calls.
pub fn close_due(
    groups: &mut Groups,
    _setting: &Aggregate,
    tick: u64,
    _most: u64,
) -> Result<Vec<Closed>, NoMemory>
    requires { AreOf _setting.now _most groups.old }
    ensures { OnOk result (AreOf _setting.now (_most + 1) groups.new) }
{
    groups.close_due(tick)
}

/// The groups that may be forced to close do, behind at most so many calls.
pub fn close_forced(
    groups: &mut Groups,
    _setting: &Aggregate,
    _most: u64,
) -> Result<Vec<Closed>, NoMemory>
    requires { AreOf _setting.now _most groups.old }
    ensures { OnOk result (AreOf _setting.now (_most + 1) groups.new) }
{
    groups.close_forced()
}

/// So many arrivals, each of a key of its own; the keys are multiples of a factor, up to the greatest. How many came to
/// another group than that of their key.
fn arrive_all(
    alloc: Global,
    groups: &mut Groups,
    setting: &Aggregate,
    factor: u64,
    count: u64,
    most: u64,
) -> Result<u64, ArriveFault>
    requires of { AreOf setting.now most groups.old }
    requires few { most < 2 ^ 24 }
    requires fits { count < 2 ^ 24 }
    ensures { OnOk result (AreOf setting.now (most + count) groups.new) }
{
    let mut wrong: u64 = 0;
    for at in 0..count {
        let number = at.wrapping_mul(factor).checked_rem(count).unwrap_or(0);
        let key = decimal(alloc, number)?;
        let arrived = arrive(alloc, groups, setting, key.as_str(), "p", 0, most + at)?;
        if arrived.group != number.saturating_add(1) {
            wrong = wrong.saturating_add(1);
        }
    }
    Ok(wrong)
}

/// So many groups open and close in another order: how many arrivals came to another group than that of their key, and how
/// many groups are open in the middle and at the end.
pub fn opened_and_closed(alloc: Global, count: u64) -> Result<(u64, usize, usize), ArriveFault>
    requires { count < 2 ^ 24 }
{
    let setting = aggregator(alloc, None, Some(2), Some(5))?;
    let mut groups = no_groups(alloc, &setting);
    let first = arrive_all(alloc, &mut groups, &setting, 1, count, 0)?;
    let middle = groups.open_groups();
    let second = arrive_all(alloc, &mut groups, &setting, 7_919, count, count)?;
    Ok((first.saturating_add(second), middle, groups.open_groups()))
}

/// The first open group that isn't the next by number, from 1, or the one behind so many.
fn out_of_order(groups: &Groups, count: u64) -> Option<u64> {
    for last in 0..count {
        match groups.open_group(last) {
            Some(open) if open.number == last + 1 => {}
            _ => return Some(last),
        }
    }
    match groups.open_group(count) {
        Some(open) => Some(open.number),
        None => None,
    }
}

/// So many groups are shown one behind the other, and close at once: the first that is shown out of order, how many close,
/// and how many stay open.
pub fn shown_and_closed(
    alloc: Global,
    count: u64,
) -> Result<(Option<u64>, usize, usize), ArriveFault>
    requires { count < 2 ^ 24 }
{
    let setting = aggregator(alloc, None, Some(2), Some(5))?;
    let mut groups = no_groups(alloc, &setting);
    arrive_all(alloc, &mut groups, &setting, 7_919, count, 0)?;
    let wrong = out_of_order(&groups, count);
    let closed = groups.close_due(5)?;
    Ok((wrong, closed.len(), groups.open_groups()))
}
