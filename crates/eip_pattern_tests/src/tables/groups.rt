ghost use Rattle.std.specs.Prelude.{◌+◌, ◌<◌, ◌^◌, OnOk};
ghost use Rattle.eip_table_runs.specs.Arriving.{AreOf};

use eip_aggregator::{ArriveFault, Arrived, Closed, Groups};
use eip_route::Aggregate;
use eip_simple_read::{CratePatterns, Predicate, SimpleFault, read_predicate};
use eip_table_runs::groups::{
    aggregator, arrive, close_due, close_forced, no_groups, opened_and_closed, shown_and_closed,
};
use eip_text::{NoMemory, Text};
use std::alloc::Global;
use std::test::*;

/// What happens to the groups of an aggregator, or is asked of them.
#[derive(Clone, Copy)]
enum Call {
    /// A message of this key and body comes at this moment.
    Came(&'static str, &'static str, u64),
    /// The clock moves on to this moment.
    Ticked(u64),
    /// Groups are forced to close.
    Forced,
    /// When is the first group due?
    Due,
    /// Which is the first group behind this number?
    Behind(u64),
    /// How many groups are open?
    Count,
}

/// A group's number, and where the arrival closed it, by what and with which body.
fn arrived_said(alloc: Global, arrived: &Arrived) -> Result<String, NoMemory> {
    match &arrived.closed {
        Some(closed) => closed_said(alloc, closed),
        None => {
            let number = arrived.group;
            Ok(format!(in alloc; "{number};")?)
        }
    }
}

/// The number, the cause and the body of a group that closed.
fn closed_said(alloc: Global, closed: &Closed) -> Result<String, NoMemory> {
    let (number, cause, body) = (closed.group, closed.cause, closed.message.body.as_str());
    Ok(format!(in alloc; "{number} {cause:?} {body};")?)
}

/// The same of each of them.
fn all_closed_said(alloc: Global, closed: &[Closed]) -> Result<String, NoMemory> {
    let mut text = String::new(alloc);
    for group in closed {
        text.push_str(closed_said(alloc, group)?.as_str())?;
    }
    Ok(text)
}

/// The first open group behind a number: its own, its size and its key.
fn shown(alloc: Global, groups: &Groups, behind: u64) -> Result<String, NoMemory> {
    let Some(open) = groups.open_group(behind) else {
        return Ok(String::from_str(alloc, "none;")?);
    };
    let (number, size, key) = (open.number, open.size, open.key.as_str());
    Ok(format!(in alloc; "{number} {size} {key};")?)
}

/// What a call answers, behind at most so many.
fn said(
    alloc: Global,
    groups: &mut Groups,
    setting: &Aggregate,
    call: Call,
    most: u64,
) -> Result<String, ArriveFault>
    requires of { AreOf setting.now most groups.old }
    requires few { most < 2 ^ 32 }
    ensures { OnOk result (AreOf setting.now (most + 1) groups.new) }
{
    match call {
        Call::Came(key, body, tick) => {
            let arrived = arrive(alloc, groups, setting, key, body, tick, most)?;
            Ok(arrived_said(alloc, &arrived)?)
        }
        Call::Ticked(tick) => {
            let closed = close_due(groups, setting, tick, most)?;
            Ok(all_closed_said(alloc, &closed)?)
        }
        Call::Forced => {
            let closed = close_forced(groups, setting, most)?;
            Ok(all_closed_said(alloc, &closed)?)
        }
        Call::Due => Ok(due_said(alloc, groups)?),
        Call::Behind(number) => Ok(shown(alloc, groups, number)?),
        Call::Count => Ok(count_said(alloc, groups)?),
    }
}

fn due_said(alloc: Global, groups: &Groups) -> Result<String, NoMemory> {
    let due = groups.due();
    Ok(format!(in alloc; "{due:?};")?)
}

fn count_said(alloc: Global, groups: &Groups) -> Result<String, NoMemory> {
    let count = groups.open_groups();
    Ok(format!(in alloc; "{count} open;")?)
}

/// What these calls answer, one behind the other.
fn tell(
    alloc: Global,
    groups: &mut Groups,
    setting: &Aggregate,
    calls: &[Call],
) -> Result<String, ArriveFault>
    requires { AreOf setting.now 0 groups.old }
{
    let mut text = String::new(alloc);
    let mut most: u64 = 0;
    for call in calls {
        if most >= 100 {
            break;
        }
        put(&mut text, said(alloc, groups, setting, *call, most)?)?;
        most += 1;
    }
    Ok(text)
}

/// Puts more behind a text.
fn put(text: &mut String, more: String) -> Result<(), NoMemory> {
    text.push_str(more.as_str())?;
    Ok(())
}

/// The same of an aggregator whose groups close with so many parts or so long behind the last.
fn told(
    alloc: Global,
    size: Option<u32>,
    timeout: Option<u64>,
    calls: &[Call],
) -> Result<String, ArriveFault> {
    let setting = aggregator(alloc, None, size, timeout)?;
    let mut groups = no_groups(alloc, &setting);
    tell(alloc, &mut groups, &setting, calls)
}

#[test]
fn groups_close_by_their_size_and_are_numbered_as_they_begin(rt: HostRuntime) -> Result<(), Fail> {
    let calls = [
        Call::Came("a", "a", 0),
        Call::Came("b", "b", 0),
        Call::Came("a", "a", 0),
        Call::Came("a", "a", 0),
        Call::Count,
    ];
    let said = told(rt.alloc(), Some(2), None, &calls)?;
    assert_eq!(rt; said.as_str(), "1;2;1 Size a,a;3;2 open;");
    Ok(())
}

#[test]
fn a_group_is_due_so_long_behind_its_last_arrival(rt: HostRuntime) -> Result<(), Fail> {
    let calls = [
        Call::Count,
        Call::Due,
        Call::Came("k", "b", 0),
        Call::Due,
        Call::Came("k", "a", 3),
        Call::Due,
    ];
    let said = told(rt.alloc(), None, Some(5), &calls)?;
    assert_eq!(rt; said.as_str(), "0 open;None;1;Some(5);1;Some(8);");
    Ok(())
}

/// A group of a part that is due late, and one of two parts that is due soon: they are shown, close at two moments, and are
/// shown again.
fn by_time(first: u64, then: u64) -> [Call; 9] {
    [
        Call::Came("late", "x", 3),
        Call::Came("soon", "y", 0),
        Call::Came("soon", "z", 1),
        Call::Behind(0),
        Call::Behind(1),
        Call::Behind(2),
        Call::Ticked(first),
        Call::Ticked(then),
        Call::Behind(0),
    ]
}

/// Two moments, and which groups close then and which is left.
const MOMENTS: [(u64, u64, &str); 3] = [
    (5, 6, "2 Timeout y,z;1 1 late;"),
    (6, 8, "2 Timeout y,z;1 Timeout x;none;"),
    (8, 9, "1 Timeout x;2 Timeout y,z;none;"),
];

#[test]
fn groups_close_when_they_are_due_in_the_order_of_their_numbers(
    rt: HostRuntime,
) -> Result<(), Fail> {
    for (first, then, want) in &MOMENTS {
        let said = told(rt.alloc(), None, Some(5), &by_time(*first, *then))?;
        let rest = said.as_str().strip_prefix("1;2;2;1 1 late;2 2 soon;none;");
        assert!(rt; rest == Some(*want));
    }
    Ok(())
}

#[test]
fn groups_close_by_force_in_the_order_of_their_numbers(rt: HostRuntime) -> Result<(), Fail> {
    let calls = [
        Call::Came("b", "x", 0),
        Call::Came("a", "y", 0),
        Call::Forced,
        Call::Forced,
        Call::Behind(0),
    ];
    let said = told(rt.alloc(), None, None, &calls)?;
    assert_eq!(rt; said.as_str(), "1;2;1 Force x;2 Force y;none;");
    Ok(())
}

/// The predicate that holds of the body `b,c`.
fn predicate(alloc: Global) -> Result<Predicate, SimpleFault> {
    let Ok(text) = Text::of_str(alloc, "${body} == 'b,c'") else {
        return Err(SimpleFault::NoMemory);
    };
    let mut patterns = CratePatterns::new(Vec::new(alloc));
    read_predicate(alloc, &text, &mut patterns)
}

/// What calls answer where groups close by that predicate, or with three parts.
fn told_by_predicate(alloc: Global, calls: &[Call]) -> Result<String, ArriveFault> {
    let Ok(predicate) = predicate(alloc) else {
        return Err(ArriveFault::NoMemory);
    };
    let setting = aggregator(alloc, Some(predicate), Some(3), None)?;
    let mut groups = no_groups(alloc, &setting);
    tell(alloc, &mut groups, &setting, calls)
}

#[test]
fn a_group_grows_and_closes_by_its_predicate(rt: HostRuntime) -> Result<(), Fail> {
    let calls = [
        Call::Came("k", "a", 0),
        Call::Came("l", "b", 0),
        Call::Came("k", "b", 0),
        Call::Came("l", "c", 0),
        Call::Came("k", "c", 0),
        Call::Count,
    ];
    let said = told_by_predicate(rt.alloc(), &calls)?;
    assert_eq!(rt; said.as_str(), "1;2;1;2 Predicate b,c;1 Size a,b,c;0 open;");
    Ok(())
}

#[test]
fn many_groups_open_and_close_in_another_order(rt: HostRuntime) -> Result<(), Fail> {
    assert_eq!(rt; opened_and_closed(rt.alloc(), 20_000)?, (0, 20_000, 0));
    Ok(())
}

#[test]
fn many_groups_are_shown_by_number_and_close_at_once(rt: HostRuntime) -> Result<(), Fail> {
    assert_eq!(rt; shown_and_closed(rt.alloc(), 20_000)?, (None, 20_000, 0));
    Ok(())
}
