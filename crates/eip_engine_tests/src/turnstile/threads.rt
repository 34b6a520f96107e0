ghost use Rattle.std.specs.Prelude.{◌≡◌, ◌+◌, IfSome, length};
ghost use Rattle.eip_turnstile.specs.Seats.{lock_id, lock_of, knows};
ghost use Rattle.eip_engine_tests.specs.Turns.{StaysIn, IsAlone};

use crate::turnstile::log::Log;
use crate::turnstile::turns::{TURNS, follow, write};
use eip_turnstile::{Seat, Turnstile};
use std::alloc::{AllocError, Global};
use std::sync::Wait;
use std::test::Fail;
use std::thread::{Threads, join_mut};

/// A thread's seat, and whether it waits for the other's entries before it writes its own.
struct Worker {
    seat: Option<Seat<Log>>,
    follows: bool,
}

fn run<R: Wait>(rt: &R, lock: &Turnstile<Log>, worker: &mut Worker)
    requires { IfSome worker.old.seat (λ s. lock_of s ≡ lock_id lock.now) }
    ensures { StaysIn worker.old.seat worker.new.seat }
{
    match worker.seat.take() {
        None => {}
        Some(seat) => {
            let seat = if worker.follows {
                follow(rt, lock, seat)
            } else {
                seat
            };
            let seat = write(rt, lock, seat);
            let before = worker.seat.replace(seat);
            let None = before else { unreachable!() };
        }
    }
}

fn run_both<R: Threads + Wait + Sync>(
    rt: &R,
    lock: &Turnstile<Log>,
    one: &mut Worker,
    other: &mut Worker,
)
    requires one { IfSome one.old.seat (λ s. lock_of s ≡ lock_id lock.now) }
    requires other { IfSome other.old.seat (λ s. lock_of s ≡ lock_id lock.now) }
    ensures one { StaysIn one.old.seat one.new.seat }
    ensures other { StaysIn other.old.seat other.new.seat }
{
    join_mut(rt, &mut || run(rt, lock, one), &mut || run(rt, lock, other));
}

fn take_in(lock: &Turnstile<Log>, first: &mut Seat<Log>, worker: Worker)
    requires own { lock_of first.old ≡ lock_id lock.now }
    requires alone { IsAlone (lock_id lock.now) worker.seat }
    ensures own { lock_of first.new ≡ lock_of first.old }
    ensures number { (knows first.new).number ≡ (knows first.old).number }
    ensures made { (knows first.new).made ≡ (knows first.old).made }
    ensures olds { length (knows first.new).olds ≡ length (knows first.old).olds + 1 }
{
    let Worker { seat, follows: _ } = worker;
    let Some(seat) = seat else { unreachable!() };
    lock.join(first, seat);
}

/// What two threads wrote, of which the second may follow the first. `None` is for want of memory.
fn written<R: Threads + Wait + Sync>(rt: &R, alloc: Global, follows: bool) -> Option<Log> {
    let log = Log::new(alloc, 7, 2 * TURNS as usize).ok()?;
    let Ok((lock, mut first)) = Turnstile::new(alloc, log, 3) else {
        return None;
    };
    let mut one = Worker {
        seat: Some(lock.split(&mut first)),
        follows: false,
    };
    let mut other = Worker {
        seat: Some(lock.split(&mut first)),
        follows,
    };
    run_both(rt, &lock, &mut one, &mut other);
    take_in(&lock, &mut first, one);
    take_in(&lock, &mut first, other);
    Some(lock.close(first))
}

fn entries_of(alloc: Global, log: &Log, number: u32) -> Result<Vec<u64>, AllocError> {
    let mut found = Vec::new(alloc);
    for (by, entry) in &log.entries {
        if *by == number {
            found.push(*entry)?;
        }
    }
    Ok(found)
}

/// Whether the entries of this number are 0, 1 and so on, one for each turn.
fn are_in_order(alloc: Global, log: &Log, number: u32) -> Result<bool, AllocError> {
    let found = entries_of(alloc, log, number)?;
    let is_each_at_its_place = found
        .iter()
        .enumerate()
        .all(|(place, entry)| *entry == place as u64);
    Ok(found.len() as u64 == TURNS && is_each_at_its_place)
}

#[test]
fn two_threads_keep_their_order(rt: HostRuntime) -> Result<(), Fail> {
    let Some(log) = written(&rt, rt.alloc(), false) else {
        panic!(rt; "no memory")
    };
    assert!(rt; log.entries.len() as u64 == 2 * TURNS);
    for number in 1..3 {
        assert!(rt; are_in_order(rt.alloc(), &log, number)?, "of {number}");
    }
    Ok(())
}

/// Whether the first thread's entries stand in their order before the second one's in theirs.
fn are_one_behind_another(log: &Log) -> bool {
    for (place, (number, entry)) in log.entries.iter().enumerate() {
        let place = place as u64;
        if *number as u64 != 1 + place / TURNS || *entry != place % TURNS {
            return false;
        }
    }
    true
}

#[test]
fn one_thread_waits_for_the_other(rt: HostRuntime) -> Result<(), Fail> {
    let Some(log) = written(&rt, rt.alloc(), true) else {
        panic!(rt; "no memory")
    };
    assert!(rt; log.entries.len() as u64 == 2 * TURNS && are_one_behind_another(&log));
    Ok(())
}
