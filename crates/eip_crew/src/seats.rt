ghost use Rattle.std.specs.Prelude.{◌≡◌, ◌≤◌, ◌<◌, ◌+◌, ℕ, All, map, vec_len, vec_capacity, slice_index_or};
ghost use Rattle.eip_turnstile.specs.Seats.{lock_id, lock_of, seat_limit, knows};
ghost use Rattle.eip_crew.specs.Crew.{IsNew, Splits, Mans, own_of, Gathers};

use eip_endpoint::{Endpoint, Inlet, Lane, Source};
use eip_route::RouteSet;
use eip_turnstile::{Seat, Turnstile};
use eip_worker::{SharedRun, Worker};

/// Makes a worker of each set and two lists, in their order, with the seat that comes next. It takes no memory.
pub(crate) fn seat_workers<E: Endpoint, S: Source>(
    lock: &Turnstile<SharedRun>,
    first: &mut Seat<SharedRun>,
    workers: &mut Vec<Worker<E, S>>,
    sets: &mut Vec<RouteSet>,
    lane_lists: &mut Vec<Vec<Lane<E>>>,
    inlet_lists: &mut Vec<Vec<Inlet<S>>>,
)
    requires own { lock_of first.old ≡ lock_id lock.now }
    requires first { (knows first.old).number ≡ 0 }
    requires room { (knows first.old).made + vec_len lane_lists.old ≤ seat_limit lock.now }
    requires alike { (vec_len sets.old ≡ vec_len lane_lists.old) × (vec_len inlet_lists.old ≡ vec_len lane_lists.old) }
    requires empty { vec_len workers.old ≡ 0 }
    requires spare { vec_len lane_lists.old ≤ vec_capacity workers.old }
    ensures sources { map (λ w. w.sources) workers.new.items ≡ sets.old.items }
    ensures lanes { map (λ w. w.lanes) workers.new.items ≡ lane_lists.old.items }
    ensures inlets { map (λ w. w.inlets) workers.new.items ≡ inlet_lists.old.items }
    ensures seats { (k : ℕ) (d : _) → k < vec_len workers.new → IsNew first.old ((knows first.old).made + k) (slice_index_or workers.new.items k d).seat }
    ensures all { vec_len workers.new ≡ vec_len lane_lists.old }
    ensures first { Splits (vec_len lane_lists.old) first.old first.new }
    ensures taken { (vec_len lane_lists.new ≡ 0) × (vec_len inlet_lists.new ≡ 0) }
    ensures kept { (vec_capacity lane_lists.new ≡ vec_capacity lane_lists.old) × (vec_capacity inlet_lists.new ≡ vec_capacity inlet_lists.old) }
{
    sets.reverse();
    lane_lists.reverse();
    inlet_lists.reverse();
    for _ in 0..lane_lists.len() {
        let (Some(sources), Some(lanes), Some(inlets)) = (
            sets.pop(),
            lane_lists.pop(),
            inlet_lists.pop(),
        ) else {
            unreachable!()
        };
        let seat = lock.split(first);
        workers.push_reserved(Worker {
            seat: Some(seat),
            sources,
            lanes,
            inlets,
            lacks_memory: false,
        });
    }
}

/// Takes the seats of all workers in, and their lists back, in their order. It says whether one of them found no memory, and takes none
/// itself.
pub(crate) fn unseat_workers<E: Endpoint, S: Source>(
    lock: &Turnstile<SharedRun>,
    first: &mut Seat<SharedRun>,
    workers: &mut Vec<Worker<E, S>>,
    lane_lists: &mut Vec<Vec<Lane<E>>>,
    inlet_lists: &mut Vec<Vec<Inlet<S>>>,
) -> bool
    requires own { lock_of first.old ≡ lock_id lock.now }
    requires all { All (λ w. Mans (lock_id lock.now) w.seat) workers.old.items }
    requires empty { (vec_len lane_lists.old ≡ 0) × (vec_len inlet_lists.old ≡ 0) }
    requires spare { (vec_len workers.old ≤ vec_capacity lane_lists.old) × (vec_len workers.old ≤ vec_capacity inlet_lists.old) }
    ensures seats { Gathers (map (λ w. own_of w.seat) workers.old.items) first.old first.new }
    ensures lanes { lane_lists.new.items ≡ map (λ w. w.lanes) workers.old.items }
    ensures inlets { inlet_lists.new.items ≡ map (λ w. w.inlets) workers.old.items }
    ensures gone { vec_len workers.new ≡ 0 }
{
    let mut starved = false;
    for _ in 0..workers.len() {
        let Some(worker) = workers.pop() else {
            unreachable!()
        };
        let Worker {
            seat,
            sources: _,
            lanes,
            inlets,
            lacks_memory,
        } = worker;
        let Some(seat) = seat else { unreachable!() };
        lock.join(first, seat);
        lane_lists.push_reserved(lanes);
        inlet_lists.push_reserved(inlets);
        starved = starved || lacks_memory;
    }
    lane_lists.reverse();
    inlet_lists.reverse();
    starved
}
