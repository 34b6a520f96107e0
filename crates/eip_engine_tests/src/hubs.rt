ghost use Rattle.std.specs.Prelude.{◌≤◌};

use crate::support::run_of_no_routes;
use eip_hub::Hub;
use eip_ledger::Stop;
use eip_text::NoMemory;
use std::alloc::Global;
use std::test::Fail;

/// Whether an exchange can be taken in hand.
fn takes(hub: &mut Hub) -> bool
    requires { 1 ≤ hub.old.room }
{
    let ticket = hub.take(0);
    let is_taken = ticket.is_some();
    drop(ticket);
    is_taken
}

/// Whether no exchange can be taken or leaves a queue, none is to be looked at, no group is open or closed by force, and nothing is left
/// to do.
fn is_over(hub: &mut Hub) -> Result<[bool; 6], NoMemory> {
    hub.reserve()?;
    let is_taken = takes(hub);
    hub.reserve()?;
    let is_started = hub.start(0).is_some();
    let is_unlooked = hub.unlooked().is_some();
    let is_forced = hub.force(0)?;
    Ok([
        !is_taken,
        !is_started,
        !is_unlooked,
        !is_forced,
        hub.open_group(0).is_none(),
        matches!(hub.stop(), Some(Stop::Drained)),
    ])
}

/// Whether a run of no routes is over at once.
fn is_over_at_once(alloc: Global) -> Result<[bool; 6], NoMemory> {
    let mut hub = run_of_no_routes(alloc, 4)?;
    let is_over = is_over(&mut hub);
    drop(hub);
    is_over
}

#[test]
fn a_set_without_routes_is_drained(rt: HostRuntime) -> Result<(), Fail> {
    let told = is_over_at_once(rt.alloc())?;
    assert!(rt; told == [true; 6]);
    Ok(())
}
