ghost use Rattle.std.specs.Prelude.{◌≡◌, ◌≤◌, ◌<◌, ◌+◌, ℕ, All, length, vec_len, vec_capacity, slice_index_or};
ghost use Rattle.eip_endpoint.specs.Inlets.{inlet_views};
ghost use Rattle.eip_endpoint.specs.Lanes.{lane_views};
ghost use Rattle.eip_turnstile.specs.Rule.{first_view};
ghost use Rattle.eip_turnstile.specs.Seats.{lock_id, lock_of, seat_limit, knows};
ghost use Rattle.eip_worker.specs.Beginning.{Beginning as Began};
ghost use Rattle.eip_worker.specs.Seats.{MaySit, Sat};
ghost use Rattle.eip_crew.specs.Team.{items_at, MayWork, Together};

use crate::crew::Crew;
use crate::seats::{seat_workers, unseat_workers};
use eip_endpoint::{Endpoint, Source};
use eip_processor::Registered;
use eip_turnstile::{Seat, Turnstile};
use eip_worker::{Gate, Round, SharedRun, Worker, serve};
use std::sync::Wait;
use std::sync::atomic::AtomicU32;
use std::thread::{Threads, for_each_mut};

/// Each worker serves, in a thread of its own where one can be started.
fn serve_each<E: Endpoint, S: Source, R: Registered + Sync, G: Gate, W: Threads + Wait + Sync>(
    rt: &W,
    round: &Round<'_, R, G>,
    workers: &mut [Worker<E, S>],
)
    requires some { 0 < length workers.old }
    requires sit { All (λ w. (start : Began) × MaySit start (lock_id round.now.lock.now) w.seat w.sources
        (lane_views E.Endpoint w.lanes.items) (inlet_views S.Source w.inlets.items) (R.view round.now.registry.now)) workers.old }
    ensures sat { (k : ℕ) (d : _) → k < length workers.old
        → (start : Began) → MaySit start (lock_id round.now.lock.now) (slice_index_or workers.old k d).seat (slice_index_or workers.old k d).sources
        (lane_views E.Endpoint (slice_index_or workers.old k d).lanes.items)
        (inlet_views S.Source (slice_index_or workers.old k d).inlets.items) (R.view round.now.registry.now)
        → Sat start (slice_index_or workers.old k d).seat (slice_index_or workers.new k d).seat
        (lane_views E.Endpoint (slice_index_or workers.old k d).lanes.items) (lane_views E.Endpoint (slice_index_or workers.new k d).lanes.items)
        (inlet_views S.Source (slice_index_or workers.old k d).inlets.items) (inlet_views S.Source (slice_index_or workers.new k d).inlets.items)
        (R.view round.now.registry.now) }
{
    let threads = workers.len();
    for_each_mut(
        rt,
        workers,
        threads,
        &|_: usize, worker: &mut Worker<E, S>|
            requires { (start : Began) × MaySit start (lock_id round.now.lock.now) worker.old.seat worker.old.sources
                (lane_views E.Endpoint worker.old.lanes.items) (inlet_views S.Source worker.old.inlets.items) (R.view round.now.registry.now) }
            ensures { (start : Began) → MaySit start (lock_id round.entry.now.lock.now) worker.old.seat worker.old.sources
                (lane_views E.Endpoint worker.old.lanes.items) (inlet_views S.Source worker.old.inlets.items) (R.view round.entry.now.registry.now)
                → Sat start worker.old.seat worker.new.seat (lane_views E.Endpoint worker.old.lanes.items) (lane_views E.Endpoint worker.new.lanes.items)
                (inlet_views S.Source worker.old.inlets.items) (inlet_views S.Source worker.new.inlets.items) (R.view round.entry.now.registry.now) }
        { serve(rt, round, worker) },
    );
}

/// All workers of a crew serve.
fn serve_all<E: Endpoint, S: Source, R: Registered + Sync, G: Gate, W: Threads + Wait + Sync>(
    rt: &W,
    round: &Round<'_, R, G>,
    workers: &mut Vec<Worker<E, S>>,
)
    requires some { 0 < vec_len workers.old }
    requires sit { All (λ w. (start : Began) × MaySit start (lock_id round.now.lock.now) w.seat w.sources
        (lane_views E.Endpoint w.lanes.items) (inlet_views S.Source w.inlets.items) (R.view round.now.registry.now)) workers.old.items }
    ensures sat { (k : ℕ) (d : _) → k < vec_len workers.old
        → (start : Began) → MaySit start (lock_id round.now.lock.now) (slice_index_or workers.old.items k d).seat (slice_index_or workers.old.items k d).sources
        (lane_views E.Endpoint (slice_index_or workers.old.items k d).lanes.items)
        (inlet_views S.Source (slice_index_or workers.old.items k d).inlets.items) (R.view round.now.registry.now)
        → Sat start (slice_index_or workers.old.items k d).seat (slice_index_or workers.new.items k d).seat
        (lane_views E.Endpoint (slice_index_or workers.old.items k d).lanes.items) (lane_views E.Endpoint (slice_index_or workers.new.items k d).lanes.items)
        (inlet_views S.Source (slice_index_or workers.old.items k d).inlets.items) (inlet_views S.Source (slice_index_or workers.new.items k d).inlets.items)
        (R.view round.now.registry.now) }
    ensures all { vec_len workers.new ≡ vec_len workers.old }
{
    serve_each(rt, round, workers.as_mut_slice());
}

/// A crew works at a run that its workers share, each in a thread where one can be started, until all are done: worker k + 1 on the
/// lanes and inlets of list k. Behind that each list is in its place again. It says whether one of them found no memory, and takes none
/// itself.
pub fn work_together<
    E: Endpoint,
    S: Source,
    R: Registered + Sync,
    G: Gate,
    W: Threads + Wait + Sync,
>(
    rt: &W,
    lock: Turnstile<SharedRun>,
    first: Seat<SharedRun>,
    crew: &mut Crew<E, S>,
    registry: &R,
    gate: &G,
) -> (SharedRun, bool)
    requires own { lock_of first ≡ lock_id lock }
    requires seats { seat_limit lock ≡ vec_len crew.old.lanes + 1 }
    requires some { 0 < vec_len crew.old.lanes }
    requires alike { (vec_len crew.old.sources ≡ vec_len crew.old.lanes) × (vec_len crew.old.inlets ≡ vec_len crew.old.lanes) }
    requires room { (vec_len crew.old.workers ≡ 0) × (vec_len crew.old.lanes ≤ vec_capacity crew.old.workers) }
    requires may { (start : Began) × (knows first ≡ first_view start) × (start.workers ≡ vec_len crew.old.lanes)
        × MayWork start crew.old.sources.items (λ k. lane_views E.Endpoint (items_at crew.old.lanes.items k))
        (λ k. inlet_views S.Source (items_at crew.old.inlets.items k)) (R.view registry.now) }
    ensures together { (start : Began) → knows first ≡ first_view start → start.workers ≡ vec_len crew.old.lanes
        → MayWork start crew.old.sources.items (λ k. lane_views E.Endpoint (items_at crew.old.lanes.items k))
        (λ k. inlet_views S.Source (items_at crew.old.inlets.items k)) (R.view registry.now)
        → Together start result.0 (λ k. lane_views E.Endpoint (items_at crew.old.lanes.items k)) (λ k. lane_views E.Endpoint (items_at crew.new.lanes.items k))
        (λ k. inlet_views S.Source (items_at crew.old.inlets.items k)) (λ k. inlet_views S.Source (items_at crew.new.inlets.items k)) (R.view registry.now) }
    ensures count { (vec_len crew.new.lanes ≡ vec_len crew.old.lanes) × (vec_len crew.new.inlets ≡ vec_len crew.old.lanes) }
    ensures gone { vec_len crew.new.workers ≡ 0 }
{
    let mut first = first;
    seat_workers(
        &lock,
        &mut first,
        &mut crew.workers,
        &mut crew.sources,
        &mut crew.lanes,
        &mut crew.inlets,
    );
    let present = AtomicU32::new(0);
    let round = Round {
        lock: &lock,
        registry,
        gate,
        present: &present,
        workers: crew.workers.len() as u32,
    };
    serve_all(rt, &round, &mut crew.workers);
    let starved = unseat_workers(
        &lock,
        &mut first,
        &mut crew.workers,
        &mut crew.lanes,
        &mut crew.inlets,
    );
    (lock.close(first), starved)
}
