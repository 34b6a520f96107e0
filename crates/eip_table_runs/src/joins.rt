ghost use Rattle.std.specs.Prelude.{◌≡◌, ◌+◌, ◌*◌, ◌<◌, ◌^◌, List, IfOk, OnOk};
ghost use Rattle.eip_join.specs.Parts.{Call, Stands, IsComplete};
ghost use Rattle.eip_table_runs.specs.Backwards.{AreLeft, AreBegun, ArePairs};

use eip_exchange::{End, Ended, Message};
use eip_join::Joins;
use eip_text::{NoMemory, decimal};
use std::alloc::Global;

/// An end of a part whose message has its index as its body.
fn ended_at(alloc: Global, index: u32) -> Result<Ended, NoMemory> {
    let body = decimal(alloc, u64::from(index))?;
    Ok(Ended {
        end: End::Completed,
        message: Message::of_body(alloc, body),
    })
}

/// The join of exchange 1 over so many parts.
pub fn one_join(alloc: Global, first: u64, count: u32) -> Result<Joins, NoMemory>
    requires { first + count < 2 ^ 64 }
    ensures { IfOk result (λ joins. AreLeft first count count joins) }
{
    let mut joins = Joins::new(alloc);
    joins.begin(1, first, count)?;
    Ok(joins)
}

/// The part of this index ends, when those behind it have.
fn end_at(
    alloc: Global,
    joins: &mut Joins,
    first: u64,
    count: u32,
    index: u32,
) -> Result<(), NoMemory>
    requires fits { first + count < 2 ^ 64 }
    requires within { index < count }
    requires left { AreLeft first count (index + 1) joins.old }
    ensures { OnOk result (AreLeft first count index joins.new) }
{
    let ended = ended_at(alloc, index)?;
    joins.part_ended(first + index as u64, ended);
    Ok(())
}

/// All parts of a join end, the last one first. How often the join was ready on the way, before the last end.
fn end_backwards(alloc: Global, joins: &mut Joins, first: u64, count: u32) -> Result<u32, NoMemory>
    requires fits { first + count < 2 ^ 64 }
    requires left { AreLeft first count count joins.old }
    ensures { OnOk result (AreLeft first count 0 joins.new) }
{
    let mut left = count;
    let mut early: u32 = 0;
    while left > 0 {
        if joins.ready(1) {
            early = early.saturating_add(1);
        }
        left -= 1;
        end_at(alloc, joins, first, count, left)?;
    }
    Ok(early)
}

/// How the parts of an exchange ended, where they all have.
pub fn taken(joins: &mut Joins, parent: u64) -> Option<Vec<Ended>>
    requires { (calls : List Call) × Stands calls joins.old }
    ensures { (calls : List Call) × Stands calls joins.new }
{
    if joins.ready(parent) {
        Some(take_join(joins, parent))
    } else {
        None
    }
}

fn take_join(joins: &mut Joins, parent: u64) -> Vec<Ended>
    requires complete { IsComplete parent joins.old }
    requires stands { (calls : List Call) × Stands calls joins.old }
    ensures { (calls : List Call) × Stands calls joins.new }
{
    joins.take(parent)
}

/// The first index at which another body stands than the index, where so many parts end backwards; or how often they
/// were ready too early, beyond so many; or so many where nothing is wrong.
pub fn first_wrong(alloc: Global, first: u64, count: u32) -> Result<usize, NoMemory>
    requires { first + count < 2 ^ 64 }
{
    let mut joins = one_join(alloc, first, count)?;
    let early = end_backwards(alloc, &mut joins, first, count)?;
    if early > 0 {
        return Ok(0);
    }
    match taken(&mut joins, 1) {
        Some(ends) => place_of_wrong(alloc, ends.as_slice(), 0),
        None => Ok(0),
    }
}

/// The first index at which another body stands than the index behind a number, or how many ends there are.
fn place_of_wrong(alloc: Global, ends: &[Ended], first: u64) -> Result<usize, NoMemory> {
    for (index, ended) in ends.iter().enumerate() {
        let want = decimal(alloc, first.saturating_add(index as u64))?;
        if ended.message.body.as_str() != want.as_str() {
            return Ok(index);
        }
    }
    Ok(ends.len())
}

/// The joins of the exchanges 1, 2 and so on, over two parts each: those of exchange n have the numbers 2n and 2n + 1.
fn many_joins(alloc: Global, count: u32) -> Result<Joins, NoMemory>
    requires { count < 2 ^ 24 }
    ensures { IfOk result (λ joins. ArePairs count (2 * count) joins) }
{
    let mut joins = Joins::new(alloc);
    for at in 0..count {
        begin_pair(&mut joins, at)?;
    }
    Ok(joins)
}

/// The next exchange is cut in two parts.
fn begin_pair(joins: &mut Joins, before: u32) -> Result<(), NoMemory>
    requires few { before < 2 ^ 24 }
    requires begun { AreBegun before joins.old }
    ensures { OnOk result (AreBegun (before + 1) joins.new) }
{
    let parent = before as u64 + 1;
    joins.begin(parent, 2 * parent, 2)
}

/// All parts of as many joins end, the last one first.
fn end_pairs(alloc: Global, joins: &mut Joins, count: u32) -> Result<(), NoMemory>
    requires few { count < 2 ^ 24 }
    requires left { ArePairs count (2 * count) joins.old }
    ensures { OnOk result ((calls : List Call) × Stands calls joins.new) }
{
    let mut left = 2 * count;
    while left > 0 {
        left -= 1;
        end_of_pair(alloc, joins, count, left)?;
    }
    Ok(())
}

/// One more part ends, when those behind it have.
fn end_of_pair(alloc: Global, joins: &mut Joins, count: u32, index: u32) -> Result<(), NoMemory>
    requires few { count < 2 ^ 24 }
    requires within { index < 2 * count }
    requires left { ArePairs count (index + 1) joins.old }
    ensures { OnOk result (ArePairs count index joins.new) }
{
    let number = index + 2;
    let ended = ended_at(alloc, number)?;
    joins.part_ended(number as u64, ended);
    Ok(())
}

/// Two parts an exchange are begun, so many in all; they end backwards, and the joins are taken in another order still. The
/// first exchange whose parts weren't handed out by their numbers.
pub fn wrong_pair(alloc: Global, parts: u32) -> Result<Option<u64>, NoMemory>
    requires { parts < 2 ^ 24 }
{
    let count = parts / 2;
    let mut joins = many_joins(alloc, count)?;
    end_pairs(alloc, &mut joins, count)?;
    for turn in 0..count as u64 {
        let parent = mixed(turn, count as u64).saturating_add(1);
        if !is_right_pair(alloc, &mut joins, parent)? {
            return Ok(Some(parent));
        }
    }
    Ok(None)
}

/// Whether both parts of an exchange have ended and are handed out by their numbers.
fn is_right_pair(alloc: Global, joins: &mut Joins, parent: u64) -> Result<bool, NoMemory>
    requires { (calls : List Call) × Stands calls joins.old }
    ensures { OnOk result ((calls : List Call) × Stands calls joins.new) }
{
    match taken(joins, parent) {
        Some(ends) => Ok(place_of_wrong(alloc, ends.as_slice(), parent.saturating_mul(2))? == 2),
        None => Ok(false),
    }
}

/// The numbers below a count in another order.
fn mixed(number: u64, count: u64) -> u64 {
    number.wrapping_mul(7_919).checked_rem(count).unwrap_or(0)
}
