ghost use Rattle.std.specs.Prelude.{◌≡◌, [], ◌∷◌};
ghost use Rattle.eip_exchange.specs.declared.birth.Origin.{Origin};
ghost use Rattle.eip_turnstile.specs.Seats.{lock_id, lock_of, knows};
ghost use Rattle.eip_turnstile.specs.declared.view.View.{View};
ghost use Rattle.eip_shared.specs.declared.beginning.Beginning.{Beginning as Began};
ghost use Rattle.eip_shared.specs.declared.deed.Deed.{Deed};
ghost use Rattle.eip_shared.specs.Shared.{deed_of};
ghost use Rattle.eip_shared.specs.Turns.{IsAtWork, Knows, Turned};
ghost use Rattle.eip_shared.specs.Looks.{Saw};

use crate::looks::Look;
use crate::outcome::Outcome;
use crate::shared::SharedRun;
use eip_turnstile::{Seat, Turnstile};
use std::sync::Wait;

/// Enters in one turn what came of a call that the worker made outside the lock. Whatever others did since the worker took it in hand,
/// it is still there, so this cannot be refused, and it takes no memory.
pub fn enter_outcome<R: Wait>(
    rt: &R,
    lock: &Turnstile<SharedRun>,
    seat: Seat<SharedRun>,
    outcome: Outcome,
) -> Seat<SharedRun>
    requires own { lock_of seat ≡ lock_id lock.now }
    requires may { (start : Began) × IsAtWork start (knows seat) × ((from : Origin) × Knows start (knows seat) from outcome) }
    ensures own { lock_of result ≡ lock_of seat }
    ensures turned { (start : Began) (from : Origin) → IsAtWork start (knows seat) → Knows start (knows seat) from outcome
        → Turned (knows seat) (knows result) (deed_of from outcome ∷ []) }
    ensures works { (start : Began) → IsAtWork start (knows seat) → IsAtWork start (knows result) }
{
    let mut held = lock.enter(rt, seat);
    let worker = held.number();
    let run = held.value();
    let _ = run.hub();
    run.enter(worker, outcome);
    lock.leave(held)
}

/// Looks in one turn what the worker does next.
pub fn look<R: Wait>(
    rt: &R,
    lock: &Turnstile<SharedRun>,
    seat: Seat<SharedRun>,
) -> (Seat<SharedRun>, Look)
    requires own { lock_of seat ≡ lock_id lock.now }
    requires works { (start : Began) × IsAtWork start (knows seat) }
    ensures own { lock_of result.0 ≡ lock_of seat }
    ensures saw { (start : Began) → IsAtWork start (knows seat) → Saw start (knows seat) (knows result.0) result.1 }
    ensures works { (start : Began) → IsAtWork start (knows seat) → IsAtWork start (knows result.0) }
{
    let mut held = lock.enter(rt, seat);
    let worker = held.number();
    let run = held.value();
    let _ = run.hub();
    let what = run.look(worker);
    (lock.leave(held), what)
}

/// Enters in one turn what came of a call, as `enter_outcome` does, and looks in the same turn what the worker does next, as `look` does.
pub fn enter_and_look<R: Wait>(
    rt: &R,
    lock: &Turnstile<SharedRun>,
    seat: Seat<SharedRun>,
    outcome: Outcome,
) -> (Seat<SharedRun>, Look)
    requires own { lock_of seat ≡ lock_id lock.now }
    requires may { (start : Began) × IsAtWork start (knows seat) × ((from : Origin) × Knows start (knows seat) from outcome) }
    ensures own { lock_of result.0 ≡ lock_of seat }
    ensures saw { (start : Began) (from : Origin) → IsAtWork start (knows seat) → Knows start (knows seat) from outcome
        → (behind : View Deed Began) × Turned (knows seat) behind (deed_of from outcome ∷ []) × IsAtWork start behind × Saw start behind (knows result.0) result.1 }
    ensures works { (start : Began) → IsAtWork start (knows seat) → IsAtWork start (knows result.0) }
{
    let mut held = lock.enter(rt, seat);
    let worker = held.number();
    let run = held.value();
    let _ = run.hub();
    run.enter(worker, outcome);
    let what = run.look(worker);
    (lock.leave(held), what)
}
