ghost use Rattle.std.specs.Prelude.{◌≡◌, ◌≤◌, vec_capacity};
ghost use Rattle.eip_endpoint.specs.Inlets.{inlet_views};
ghost use Rattle.eip_endpoint.specs.Lanes.{lane_views};
ghost use Rattle.eip_outlets.specs.Outlets.{outlets};
ghost use Rattle.eip_owners.specs.Owners.{OwnersPull};
ghost use Rattle.eip_crew.specs.View.{IsLegalRun};
ghost use Rattle.eip_crew.specs.Drain.{CanDrain, IsStop};
ghost use Rattle.eip_workers.specs.Works.{Works};

use crate::rounds::round;
use eip_crew::{Gate, Hub};
use eip_endpoint::{Endpoint, Inlet, Lane, Source};
use eip_ledger::Stop;
use eip_processor::Registered;
use std::alloc::Global;
use std::sync::Wait;
use std::thread::Threads;

/// Drains the sources of a run by so many workers, from 1 on, each in a thread of its own where one can be started. The lane or inlet with
/// index e, from 0, is that of the worker e modulo their number, plus 1, who alone calls it, outside the lock; processors and predicates
/// are called by any of them. It is not said that it returns. Where it does, it answers the stop of the journal, or `NoMemory`, and lanes
/// and inlets stand in their places.
pub fn run_workers<E: Endpoint, S: Source, R: Registered + Sync, G: Gate, W: Threads + Wait + Sync>(
    rt: &W,
    alloc: Global,
    hub: Hub,
    lanes: &mut Vec<Lane<E>>,
    inlets: &mut Vec<Inlet<S>>,
    registry: &R,
    gate: &G,
    workers: u32,
) -> (Hub, Stop)
    requires workers { (1 ≤ workers) × (workers ≤ 16) × (hub.journal.workers ≡ workers) }
    requires pulls { OwnersPull (outlets hub.set) workers hub.journal.past }
    requires can_run { CanDrain hub (lane_views E.Endpoint lanes.old.items) (inlet_views S.Source inlets.old.items) (R.view registry.now) }
    ensures stop { IsStop result.0 result.1 }
    ensures legal { IsLegalRun result.0 }
    ensures works { Works hub result.0 (lane_views E.Endpoint lanes.old.items) (lane_views E.Endpoint lanes.new.items)
        (inlet_views S.Source inlets.old.items) (inlet_views S.Source inlets.new.items) (R.view registry.now) }
    ensures room { (vec_capacity lanes.new ≡ vec_capacity lanes.old) × (vec_capacity inlets.new ≡ vec_capacity inlets.old) }
{
    let mut hub = hub;
    for _ in rt.forever() {
        let (after, stop) = round(rt, alloc, hub, lanes, inlets, registry, gate, workers);
        hub = after;
        if let Some(stop) = stop {
            return (hub, stop);
        }
    }
    unreachable!()
}
