ghost use Rattle.std.specs.Prelude.{◌≡◌, IfOk, OnErr};
ghost use Rattle.eip_plan.specs.Plan.{setting_of};
ghost use Rattle.eip_rows.specs.Coming.{IsComing, IsToldOf, Comes, ComesTo, outcome};

use eip_aggregator::{ArriveFault, Arrived, Closed, Groups};
use eip_cursor::faults::strategy_fault;
use eip_cursor::values::{empty, route_id};
use eip_exchange::{Fault, Message};
use eip_frames::Request;
use eip_route::{Aggregate, RouteSet};
use eip_tables::aggregators::{aggregator_among, plain_aggregate};
use eip_tables::row::Row;
use eip_text::{Boxed, NoMemory, Text};
use std::alloc::Global;

/// What came of an exchange's arrival at its aggregator (Hohpe and Woolf, *Aggregator*).
#[derive(Drop)]
pub enum Coming {
    /// It joined the group with this number, which is still open.
    Open(u64),
    /// It joined this group, which closed with it.
    Shut(Closed),
    /// The aggregator's strategy can't add it.
    Unfit(Boxed<Fault>),
}

/// The exchange with this number and row comes to the aggregator that it asks to take it. On `NoMemory` the groups are as before.
pub fn come(
    alloc: Global,
    set: &RouteSet,
    groups: &mut Groups,
    row: &Row,
    number: u64,
    clock: u64,
) -> Result<Coming, NoMemory>
    requires asks { IsComing row.now }
    requires told { IsToldOf set.now groups.old }
    ensures ok { IfOk result (λ came. ComesTo set.now row.now number clock groups.old groups.new came) }
    ensures err { OnErr result (groups.new ≡ groups.old) }
{
    let Some(request) = row.request() else {
        unreachable!()
    };
    let Request::Arrive {
        aggregator,
        key,
        message,
    } = request
    else {
        unreachable!()
    };
    match aggregator_among(set.blocks.items(), *aggregator) {
        Some(setting) => arrive(
            alloc, set, groups, setting, row, key, message, number, clock,
        ),
        None => {
            let setting = plain_aggregate(alloc, *aggregator)?;
            arrive(
                alloc, set, groups, &setting, row, key, message, number, clock,
            )
        }
    }
}

/// What an answered arrival comes to.
fn outcome(arrived: Arrived) -> Coming
    ensures { result ≡ outcome arrived }
{
    match arrived.closed {
        Some(closed) => Coming::Shut(closed),
        None => Coming::Open(arrived.group),
    }
}

/// The same by the aggregator's setting.
fn arrive(
    alloc: Global,
    set: &RouteSet,
    groups: &mut Groups,
    setting: &Aggregate,
    row: &Row,
    key: &Text,
    message: &Message,
    number: u64,
    clock: u64,
) -> Result<Coming, NoMemory>
    requires told { IsToldOf set.now groups.old }
    requires setting { setting.now ≡ setting_of set.now setting.now.block }
    ensures ok { IfOk result (λ came. Comes set.now row.now setting.now.block key.now message.now number clock groups.old groups.new came) }
    ensures err { OnErr result (groups.new ≡ groups.old) }
{
    let none = empty(alloc);
    let route = route_id(set, row.at().route, &none);
    match groups.arrive(setting, key, message, row.hops(), number, route, clock) {
        Ok(arrived) => Ok(outcome(arrived)),
        Err(ArriveFault::Unfit(found)) => {
            let fault = strategy_fault(alloc, found)?;
            Ok(Coming::Unfit(Boxed::of(alloc, fault)?))
        },
        Err(ArriveFault::NoMemory) => Err(NoMemory),
    }
}
