ghost use Rattle.std.specs.Prelude.{◌≡◌};
ghost use Rattle.eip_turnstile.specs.Seats.{lock_id, lock_of};
ghost use Rattle.eip_engine_tests.specs.Turns.{Stays};

use crate::turnstile::log::Log;
use crate::turnstile::turns::turn;
use eip_turnstile::{Seat, Turnstile};
use std::sync::Wait;
use std::test::Fail;

/// A turn in which the seat writes 40, and what is told in it: the seat's number, whether the lock is taken, and whether the entry is
/// added.
fn told_turn<R: Wait>(
    rt: &R,
    lock: &Turnstile<Log>,
    seat: Seat<Log>,
) -> (Seat<Log>, (u32, bool, bool))
    requires { lock_of seat ≡ lock_id lock.now }
    ensures { Stays seat result.0 }
{
    let mut held = lock.enter(rt, seat);
    let is_taken = !lock.is_free();
    let number = held.number();
    let is_added = held.value().append(number, 40).is_ok();
    (lock.leave(held), (number, is_taken, is_added))
}

#[test]
fn each_call_once(rt: HostRuntime) -> Result<(), Fail> {
    let log = Log::new(rt.alloc(), 7, 2)?;
    let Ok((lock, mut first)) = Turnstile::new(rt.alloc(), log, 2) else {
        panic!(rt; "no memory")
    };
    let other = lock.split(&mut first);
    let numbers = (first.number(), other.number());
    let at_rest = (lock.is_free(), lock.length(), first.seen());
    let (other, told) = told_turn(&rt, &lock, other);
    let behind = (lock.length(), other.seen(), first.seen());
    // The first seat has not seen that entry, so this returns at once.
    lock.wait(&rt, &first);
    let (mut first, is_added) = turn(&rt, &lock, first, 50);
    lock.join(&mut first, other);
    let log = lock.close(first);
    assert!(rt; numbers == (0, 1) && at_rest == (true, 0, 0));
    assert!(rt; told == (1, true, true) && behind == (1, 1, 0) && is_added);
    assert!(rt; log.name == 7 && log.entries.as_slice() == [(1, 40), (0, 50)].as_slice());
    Ok(())
}
