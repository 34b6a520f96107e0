ghost use Rattle.std.specs.Prelude.{◌≡◌, ◌≤◌, ◌<◌, ℕ, All, vec_len, vec_capacity, slice_index_or, IfSome};
ghost use Rattle.eip_endpoint.specs.Inlets.{inlet_views};
ghost use Rattle.eip_endpoint.specs.Lanes.{lane_views};
ghost use Rattle.eip_outlets.specs.Outlets.{outlets};
ghost use Rattle.eip_owners.specs.Owners.{OwnersPull};
ghost use Rattle.eip_crew.specs.View.{IsLegalRun};
ghost use Rattle.eip_crew.specs.Drain.{CanDrain, IsStop};
ghost use Rattle.eip_workers.specs.Works.{Works};

use crate::sources::sources_of_all;
use eip_crew::{Crew, Gate, Hub, SharedRun, work_together};
use eip_endpoint::{Endpoint, Inlet, Lane, Source};
use eip_ledger::Stop;
use eip_processor::Registered;
use eip_turnstile::Turnstile;
use std::alloc::Global;
use std::sync::Wait;
use std::thread::Threads;

/// A crew with as many workers as the journal has shares a run: lanes and inlets are dealt out to them, and are gathered in their places
/// behind what they did. It says whether there was no memory, for the lock or for a worker; without a lock it does nothing.
fn share<E: Endpoint, S: Source, R: Registered + Sync, G: Gate, W: Threads + Wait + Sync>(
    rt: &W,
    alloc: Global,
    hub: Hub,
    crew: Crew<E, S>,
    lanes: &mut Vec<Lane<E>>,
    inlets: &mut Vec<Inlet<S>>,
    registry: &R,
    gate: &G,
) -> (Hub, bool)
    requires some { 1 ≤ hub.journal.workers }
    requires count { (vec_len crew.sources ≡ hub.journal.workers) × (vec_len crew.lanes ≡ hub.journal.workers) × (vec_len crew.inlets ≡ hub.journal.workers) }
    requires workers { (vec_len crew.workers ≡ 0) × (hub.journal.workers ≤ vec_capacity crew.workers) }
    requires lanes { (k : ℕ) (d : _) → k < hub.journal.workers
        → (vec_len (slice_index_or crew.lanes.items k d) ≡ 0) × (vec_len lanes.old ≤ vec_capacity (slice_index_or crew.lanes.items k d)) }
    requires inlets { (k : ℕ) (d : _) → k < hub.journal.workers
        → (vec_len (slice_index_or crew.inlets.items k d) ≡ 0) × (vec_len inlets.old ≤ vec_capacity (slice_index_or crew.inlets.items k d)) }
    requires routes { All (λ s. s.routes ≡ hub.set.routes) crew.sources.items }
    requires pulls { OwnersPull (outlets hub.set) hub.journal.workers hub.journal.past }
    requires can_run { CanDrain hub (lane_views E.Endpoint lanes.old.items) (inlet_views S.Source inlets.old.items) (R.view registry.now) }
    ensures legal { IsLegalRun result.0 }
    ensures works { Works hub result.0 (lane_views E.Endpoint lanes.old.items) (lane_views E.Endpoint lanes.new.items)
        (inlet_views S.Source inlets.old.items) (inlet_views S.Source inlets.new.items) (R.view registry.now) }
    ensures room { (vec_capacity lanes.new ≡ vec_capacity lanes.old) × (vec_capacity inlets.new ≡ vec_capacity inlets.old) }
{
    let mut crew = crew;
    let seats = hub.journal().workers() + 1;
    let (lock, first) = match Turnstile::new(alloc, SharedRun::new(hub), seats) {
        Ok(made) => made,
        Err(run) => {
            crew.free();
            return (run.into_hub(), true);
        }
    };
    let counts = (lanes.len(), inlets.len());
    crew.deal(lanes, inlets);
    let (run, starved) = work_together(rt, lock, first, &mut crew, registry, gate);
    let hub = run.into_hub();
    crew.gather(lanes, inlets, counts);
    crew.free();
    (hub, starved)
}

/// One round: workers share a run until each is done. Where it answers no stop, nobody found no memory and the run has not stopped, so
/// another round is needed: a worker ends its round where it found nothing to do for long.
pub(crate) fn round<
    E: Endpoint,
    S: Source,
    R: Registered + Sync,
    G: Gate,
    W: Threads + Wait + Sync,
>(
    rt: &W,
    alloc: Global,
    hub: Hub,
    lanes: &mut Vec<Lane<E>>,
    inlets: &mut Vec<Inlet<S>>,
    registry: &R,
    gate: &G,
    workers: u32,
) -> (Hub, Option<Stop>)
    requires workers { (1 ≤ workers) × (hub.journal.workers ≡ workers) }
    requires pulls { OwnersPull (outlets hub.set) workers hub.journal.past }
    requires can_run { CanDrain hub (lane_views E.Endpoint lanes.old.items) (inlet_views S.Source inlets.old.items) (R.view registry.now) }
    ensures stop { IfSome result.1 (λ stop. IsStop result.0 stop) }
    ensures legal { IsLegalRun result.0 }
    ensures works { Works hub result.0 (lane_views E.Endpoint lanes.old.items) (lane_views E.Endpoint lanes.new.items)
        (inlet_views S.Source inlets.old.items) (inlet_views S.Source inlets.new.items) (R.view registry.now) }
    ensures room { (vec_capacity lanes.new ≡ vec_capacity lanes.old) × (vec_capacity inlets.new ≡ vec_capacity inlets.old) }
{
    let _ = hub.journal();
    let Ok(sources) = sources_of_all(alloc, hub.set(), workers) else {
        return (hub, Some(Stop::NoMemory));
    };
    let Ok(crew) = Crew::new(alloc, sources, lanes.len(), inlets.len()) else {
        return (hub, Some(Stop::NoMemory));
    };
    let (hub, starved) = share(rt, alloc, hub, crew, lanes, inlets, registry, gate);
    let stop = if starved {
        Some(Stop::NoMemory)
    } else {
        hub.stop()
    };
    (hub, stop)
}
