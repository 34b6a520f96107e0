ghost use Rattle.std.specs.Prelude.{◌≡◌, [], ◌∷◌};
ghost use Rattle.eip_exchange.specs.declared.birth.Origin.{Origin};
ghost use Rattle.eip_endpoint.specs.Inlets.{inlet_views};
ghost use Rattle.eip_endpoint.specs.Lanes.{lane_views};
ghost use Rattle.eip_turnstile.specs.Seats.{lock_id, lock_of, knows};
ghost use Rattle.eip_turnstile.specs.declared.view.View.{View};
ghost use Rattle.eip_shared.specs.declared.beginning.Beginning.{Beginning as Began};
ghost use Rattle.eip_shared.specs.declared.deed.Deed.{Deed};
ghost use Rattle.eip_shared.specs.Looks.{Saw};
ghost use Rattle.eip_shared.specs.Shared.{deed_of};
ghost use Rattle.eip_shared.specs.Turns.{IsAtWork, Knows, Turned};
ghost use Rattle.eip_worker.specs.Serves.{IsReady, Served, Stands};
ghost use Rattle.eip_worker.specs.Seats.{MaySit, Sat};

use crate::calls::{call, pull};
use crate::gate::Gate;
use crate::pace::Pace;
use crate::worker::{Round, Worker};
use eip_endpoint::{Endpoint, Source};
use eip_processor::Registered;
use eip_shared::{Look, Outcome, SharedRun, enter_and_look, enter_outcome, look};
use eip_turnstile::Seat;
use std::sync::Wait;
use std::sync::atomic::Ordering;
use std::thread::Parker;

/// A seat, and what the last look from it told.
type Standing = (Seat<SharedRun>, Look);

/// Enters in a turn what came of a call, and looks in the same turn what the worker does next, unless it makes way for others.
fn enter<R, G, W: Wait>(
    rt: &W,
    round: &Round<'_, R, G>,
    seat: Seat<SharedRun>,
    outcome: Outcome,
    makes_way: bool,
) -> Standing
    requires own { lock_of seat ≡ lock_id round.now.lock.now }
    requires may { (start : Began) × IsAtWork start (knows seat) × ((from : Origin) × Knows start (knows seat) from outcome) }
    ensures own { lock_of result.0 ≡ lock_of seat }
    ensures saw { (start : Began) (from : Origin) → IsAtWork start (knows seat) → Knows start (knows seat) from outcome
        → (behind : View Deed Began) × Turned (knows seat) behind (deed_of from outcome ∷ []) × IsAtWork start behind × Saw start behind (knows result.0) result.1 }
    ensures works { (start : Began) → IsAtWork start (knows seat) → IsAtWork start (knows result.0) }
{
    if makes_way {
        return (enter_outcome(rt, round.lock, seat, outcome), Look::Did);
    }
    enter_and_look(rt, round.lock, seat, outcome)
}

/// Makes the call outside the lock that the last look asked for, if it asked for one, enters in a turn what came of it, and looks in the
/// same turn what the worker does next, unless it makes way for others. Where there was no memory for a pull, that stays out, and the
/// worker is at its end.
fn make_step<E: Endpoint, S: Source, R: Registered, G: Gate, W: Wait>(
    rt: &W,
    round: &Round<'_, R, G>,
    at: Standing,
    pace: &mut Pace,
    worker: &mut Worker<E, S>,
) -> Standing
    requires own { lock_of at.0 ≡ lock_id round.now.lock.now }
    requires ready { (start : Began) × IsReady start (knows at.0) worker.old.sources (lane_views E.Endpoint worker.old.lanes.items)
        (inlet_views S.Source worker.old.inlets.items) (R.view round.now.registry.now) × Stands start (knows at.0) at.1 }
    ensures own { lock_of result.0 ≡ lock_of at.0 }
    ensures served { (start : Began) → IsReady start (knows at.0) worker.old.sources (lane_views E.Endpoint worker.old.lanes.items)
        (inlet_views S.Source worker.old.inlets.items) (R.view round.now.registry.now) → Stands start (knows at.0) at.1
        → Served start (knows at.0) (knows result.0) (lane_views E.Endpoint worker.old.lanes.items) (lane_views E.Endpoint worker.new.lanes.items)
        (inlet_views S.Source worker.old.inlets.items) (inlet_views S.Source worker.new.inlets.items) (R.view round.now.registry.now)
        × Stands start (knows result.0) result.1 }
    ensures same { (worker.new.seat ≡ worker.old.seat) × (worker.new.sources ≡ worker.old.sources) }
{
    let (seat, what) = at;
    let outcome = match what {
        Look::Call { ticket, told } => Some(call(
            &worker.sources,
            &mut worker.lanes,
            &mut worker.inlets,
            round.registry,
            round.gate,
            ticket,
            told,
        )),
        Look::Pull(source) => pull(&worker.sources, &mut worker.inlets, source),
        _ => return look(rt, round.lock, seat),
    };
    match outcome {
        Some(outcome) => {
            let makes_way = pace.meets(round.lock.is_free());
            enter(rt, round, seat, outcome, makes_way)
        }
        None => (seat, Look::NoMemory),
    }
}

/// The seat of a worker at its end, which may be for want of memory.
fn end_of<E, S>(at: Standing, worker: &mut Worker<E, S>) -> Seat<SharedRun>
    ensures seat { result ≡ at.0 }
    ensures same { (worker.new.seat ≡ worker.old.seat) × (worker.new.lanes ≡ worker.old.lanes) × (worker.new.inlets ≡ worker.old.inlets) }
{
    let (seat, what) = at;
    if let Look::NoMemory = what {
        worker.lacks_memory = true;
    }
    seat
}

/// Takes turns and makes calls until the run stops, or there was no memory, or there was nothing to do for long while not all are at
/// work. Whoever finds nothing to do, or others in its way, lets them work.
fn work<E: Endpoint, S: Source, R: Registered, G: Gate, W: Wait>(
    rt: &W,
    round: &Round<'_, R, G>,
    seat: Seat<SharedRun>,
    worker: &mut Worker<E, S>,
) -> Seat<SharedRun>
    requires own { lock_of seat ≡ lock_id round.now.lock.now }
    requires ready { (start : Began) × IsReady start (knows seat) worker.old.sources (lane_views E.Endpoint worker.old.lanes.items)
        (inlet_views S.Source worker.old.inlets.items) (R.view round.now.registry.now) }
    ensures own { lock_of result ≡ lock_of seat }
    ensures served { (start : Began) → IsReady start (knows seat) worker.old.sources (lane_views E.Endpoint worker.old.lanes.items)
        (inlet_views S.Source worker.old.inlets.items) (R.view round.now.registry.now)
        → Served start (knows seat) (knows result) (lane_views E.Endpoint worker.old.lanes.items) (lane_views E.Endpoint worker.new.lanes.items)
        (inlet_views S.Source worker.old.inlets.items) (inlet_views S.Source worker.new.inlets.items) (R.view round.now.registry.now) }
    ensures seat { worker.new.seat ≡ worker.old.seat }
{
    let mut at = look(rt, round.lock, seat);
    let mut pace = Pace::new();
    let parker = Parker::new();
    for _ in rt.forever() {
        if !round.goes_on(&at.1, &mut pace) {
            return end_of(at, worker);
        }
        round.rest(rt, &parker, &mut pace, &at.0);
        at = make_step(rt, round, at, &mut pace, worker);
    }
    unreachable!()
}

/// Works in a round, among those that are present: until the run stops, or there was no memory, or there was nothing to do for long
/// while not all workers are present. The worker has its seat again behind it.
pub fn serve<E: Endpoint, S: Source, R: Registered, G: Gate, W: Wait>(
    rt: &W,
    round: &Round<'_, R, G>,
    worker: &mut Worker<E, S>,
)
    requires sits { (start : Began) × MaySit start (lock_id round.now.lock.now) worker.old.seat worker.old.sources
        (lane_views E.Endpoint worker.old.lanes.items) (inlet_views S.Source worker.old.inlets.items) (R.view round.now.registry.now) }
    ensures sat { (start : Began) → MaySit start (lock_id round.now.lock.now) worker.old.seat worker.old.sources
        (lane_views E.Endpoint worker.old.lanes.items) (inlet_views S.Source worker.old.inlets.items) (R.view round.now.registry.now)
        → Sat start worker.old.seat worker.new.seat (lane_views E.Endpoint worker.old.lanes.items) (lane_views E.Endpoint worker.new.lanes.items)
        (inlet_views S.Source worker.old.inlets.items) (inlet_views S.Source worker.new.inlets.items) (R.view round.now.registry.now) }
{
    let Some(seat) = worker.seat.take() else {
        unreachable!()
    };
    round.present.fetch_add(1, Ordering::SeqCst);
    let seat = work(rt, round, seat, worker);
    round.present.fetch_sub(1, Ordering::SeqCst);
    let before = worker.seat.replace(seat);
    let None = before else { unreachable!() };
}
