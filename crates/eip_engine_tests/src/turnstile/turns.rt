ghost use Rattle.std.specs.Prelude.{◌≡◌, [], ◌∷◌, ◌++◌, IsTrue};
ghost use Rattle.eip_turnstile.specs.Seats.{lock_id, lock_of, knows};
ghost use Rattle.eip_engine_tests.specs.Turns.{Stays};

use crate::turnstile::log::Log;
use eip_turnstile::{Seat, Turnstile};
use std::sync::Wait;

/// How many turns each of two threads takes.
pub const TURNS: u64 = 100;

/// One turn, in which the seat writes this number. False is for want of memory.
pub fn turn<R: Wait>(
    rt: &R,
    lock: &Turnstile<Log>,
    seat: Seat<Log>,
    entry: u64,
) -> (Seat<Log>, bool)
    requires { lock_of seat ≡ lock_id lock.now }
    ensures stays { Stays seat result.0 }
    ensures added { IsTrue result.1 → (knows result.0).mine ≡ (knows seat).mine ++ entry ∷ [] }
{
    let mut held = lock.enter(rt, seat);
    let number = held.number();
    let is_added = held.value().append(number, entry).is_ok();
    (lock.leave(held), is_added)
}

/// So many turns, in which the seat writes 0, 1 and so on.
pub fn write<R: Wait>(rt: &R, lock: &Turnstile<Log>, seat: Seat<Log>) -> Seat<Log>
    requires { lock_of seat ≡ lock_id lock.now }
    ensures { Stays seat result }
{
    let mut seat = seat;
    for entry in 0..TURNS {
        let (next, _is_added) = turn(rt, lock, seat, entry);
        seat = next;
    }
    seat
}

/// Waits until there are as many entries as one thread writes.
pub fn follow<R: Wait>(rt: &R, lock: &Turnstile<Log>, seat: Seat<Log>) -> Seat<Log>
    requires { lock_of seat ≡ lock_id lock.now }
    ensures { Stays seat result }
{
    let mut seat = seat;
    for _ in rt.forever() {
        let mut held = lock.enter(rt, seat);
        let is_written = held.value().entries.len() as u64 >= TURNS;
        seat = lock.leave(held);
        if is_written {
            return seat;
        }
        lock.wait(rt, &seat);
    }
    unreachable!()
}
