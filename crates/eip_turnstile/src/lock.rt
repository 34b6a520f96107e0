//! What is done at a turnstile: it is made, seats take turns at it, and it is closed.
ghost use Rattle.std.specs.Prelude.{◌≡◌, ℕ, ◌<◌, ◌+◌, List, [], ◌∷◌, ◌++◌, length, IfOk, IfErr, Some};
ghost use Rattle.eip_turnstile.specs.Rule.{entries_by, StartsWith, AllBy, AllBelow, Told, all_of, times, first_view};
ghost use Rattle.eip_turnstile.specs.Seats.{lock_id, lock_of, lock_held, seat_limit, knows, held_knows};
ghost use Rattle.std.specs.Borrow.{sem};
ghost use Rattle.eip_turnstile.specs.Lends.{lends_value};
ghost use Rattle.eip_turnstile.specs.Steps.{split_left, split_right, joined, claimed, counted, released};

use crate::chronicle::Chronicle;
use crate::law::{Claim, Count, Law, NewSeat, Release, TakenIn};
use crate::seat::{Held, Seat, Turnstile};
use atomic_table::{Refused, Table};
use std::alloc::Global;
use std::snapshot::Snapshot;
use std::sync::Wait;
use std::thread::yield_now;

/// So often a thread that waits for the turn looks whether it is free before it sleeps: to sleep and to be woken takes longer than most
/// turns.
const PEEKS: u32 = 1_000;

/// So often it lets others work between two looks. Whoever leaves a turn and comes back at once so mostly finds it free, and goes on
/// with what its processor has at hand.
const YIELDS: u32 = 2;

impl<V: Chronicle> Turnstile<V> {
    /// Locks the value, which has no entries yet, for at most this many seats, and makes the first one, whose number is 0.
    /// `Err` is for want of memory alone, and gives the value back as it was.
    pub fn new(alloc: Global, value: V, seats: u32) -> Result<(Turnstile<V>, Seat<V>), V>
        requires seats { 0 < seats }
        requires empty { V.entries value ≡ [] }
        ensures ok { IfOk result (λ t. (lock_of t.1 ≡ lock_id t.0) × ((knows t.1) ≡ first_view (V.base value)) × (seat_limit t.0 ≡ seats)) }
        ensures err { IfErr result (λ v. v ≡ value) }
    {
        let about = Snapshot::of(&value);
        let mut slots = Vec::new(alloc);
        if slots.reserve(1).is_err() {
            return Err(value);
        }
        slots.push_reserved(Some(value));
        match Table::new(alloc, &[0, 0], slots, &about) {
            Ok((table, place)) => Ok((
                Turnstile { table, seats },
                Seat {
                    place,
                    number: 0,
                    made: 1,
                    seen: 0,
                },
            )),
            Err(Refused { mut slots }) => {
                let back = slots.pop().unwrap().unwrap();
                Err(back)
            }
        }
    }

    /// Makes one more seat, under the next number, with no entries of its own. It is made by the first seat, and has seen as much of the
    /// list as that one, of which nothing changes but how many seats it has made. There are never more than `new` was told. This takes
    /// no memory.
    pub fn split(&self, seat: &mut Seat<V>) -> Seat<V>
        requires own { lock_of seat.old ≡ lock_id self.now }
        requires first { (knows seat.old).number ≡ 0 }
        requires room { (knows seat.old).made < seat_limit self.now }
        ensures own { (lock_of seat.new ≡ lock_of seat.old) × (lock_of result ≡ lock_of seat.old) }
        ensures old { knows seat.new ≡ split_left (knows seat.old) }
        ensures new { knows result ≡ split_right (knows seat.old) }
    {
        let place = self.table.shared.split_seat::<NewSeat>(&mut seat.place);
        let number = seat.made;
        seat.made += 1;
        Seat {
            place,
            number,
            made: 0,
            seen: seat.seen,
        }
    }

    /// Ends the other seat. The seat takes in its number with its entries, and all that it had taken in, and has then seen as much of
    /// the list as the one of the two that saw more. The number and the entries of the seat itself stay. This takes no memory.
    pub fn join(&self, seat: &mut Seat<V>, other: Seat<V>)
        requires own { (lock_of seat.old ≡ lock_id self.now) × (lock_of other ≡ lock_id self.now) }
        ensures own { lock_of seat.new ≡ lock_of seat.old }
        ensures knows { knows seat.new ≡ joined (knows seat.old) (knows other) }
    {
        let Seat {
            place,
            number: _,
            made: _,
            seen,
        } = other;
        let shared = &self.table.shared;
        shared.join_seat::<TakenIn>(&mut seat.place, place);
        if seat.seen < seen {
            seat.seen = seen;
        }
    }

    /// Waits for the turn, and hands out the value. Its list begins with what the seat had seen of it, has of the seat's number exactly
    /// the entries that the seat knows, and its base is the one that was locked. Where whoever has the turn never leaves, this never returns.
    pub fn enter<R: Wait>(&self, rt: &R, seat: Seat<V>) -> Held<V>
        requires own { lock_of seat ≡ lock_id self.now }
        ensures own { lock_held result ≡ lock_of seat }
        ensures view { held_knows result ≡ claimed (knows seat) (V.entries result.value) }
        ensures begins { StartsWith (V.entries result.value) (knows seat).seen }
        ensures mine { entries_by (knows seat).number (V.entries result.value) ≡ (knows seat).mine }
        ensures base { Some (V.base result.value) ≡ (knows seat).base }
    {
        let Seat {
            mut place,
            number,
            made,
            seen: _,
        } = seat;
        let shared = &self.table.shared;
        let own_mark = u64::from(number) + 1;
        for _ in rt.forever() {
            let found = shared.compare_exchange::<Claim<V>>(&mut place, 1, 0, own_mark);
            if found == 0 {
                let value = shared.exchange(&mut place, 0, None).unwrap();
                let begun = value.length();
                return Held {
                    place,
                    number,
                    made,
                    begun,
                    value,
                };
            }
            if !self.comes_free() {
                shared.park(rt, 1, (found & 0xffff_ffff) as u32);
            }
        }
        unreachable!()
    }

    /// Whether nobody has the turn. By the time that the caller reads it, it may have changed.
    pub fn is_free(&self) -> bool {
        self.table.shared.peek(1) == 0
    }

    /// How many entries there are, those of a turn once it ends. By the time that the caller reads it, there may be more.
    pub fn length(&self) -> u64 {
        self.table.shared.peek(0)
    }

    /// Whether the turn comes free within a short while.
    fn comes_free(&self) -> bool {
        for _ in 0..PEEKS {
            if self.is_free() {
                return true;
            }
            let_others_work();
        }
        false
    }

    /// Sleeps until there are entries that the seat has not seen. It may return before that, so a caller that waits for something looks
    /// again; and a list that grew by a multiple of 2 ^ 32 entries is taken for one that did not grow.
    pub fn wait<R: Wait>(&self, rt: &R, seat: &Seat<V>)
        requires own { lock_of seat.now ≡ lock_id self.now }
    {
        let shared = &self.table.shared;
        shared.park(rt, 0, (seat.seen & 0xffff_ffff) as u32);
    }

    /// Ends the turn, and puts the value back. It has the base that `enter` gave, and its list is the one that `enter` gave with entries
    /// of this seat's number behind. The seat has then seen the whole list, and knows its own entries in it. This takes no memory.
    pub fn leave(&self, held: Held<V>) -> Seat<V>
        requires own { lock_held held ≡ lock_id self.now }
        requires base { Some (V.base held.value) ≡ (held_knows held).base }
        requires list { (more : List _) × (V.entries held.value ≡ (held_knows held).seen ++ more) × AllBy (held_knows held).number more }
        ensures own { lock_of result ≡ lock_held held }
        ensures view { knows result ≡ released (counted (held_knows held) (V.entries held.value)) }
    {
        let Held {
            mut place,
            number,
            made,
            begun,
            value,
        } = held;
        let shared = &self.table.shared;
        let seen = value.length();
        let count = seen - begun;
        drop(shared.exchange(&mut place, 0, Some(value)));
        shared.fetch_add::<Count<V>>(&mut place, 0, count);
        shared.store::<Release<V>>(&mut place, 1, 0);
        shared.wake_one(1);
        if 0 < count {
            shared.wake_all(0);
        }
        Seat {
            place,
            number,
            made,
            seen,
        }
    }

    /// Ends the turnstile. The first seat has taken all others in, so nobody has the turn, and the value is here. Its list begins with
    /// what was seen of it, has of each number exactly the entries that its seat made, and none of any other number; its base is the
    /// one that was locked.
    pub fn close(self, seat: Seat<V>) -> V
        requires own { lock_of seat ≡ lock_id self }
        requires first { (knows seat).number ≡ 0 }
        requires all { length (knows seat).olds + 1 ≡ (knows seat).made }
        ensures begins { StartsWith (V.entries result) (knows seat).seen }
        ensures told { Told (V.entries result) (all_of (knows seat)) }
        ensures no_others { AllBelow (knows seat).made (V.entries result) }
        ensures each { (n : ℕ) → n < (knows seat).made → times n (all_of (knows seat)) ≡ 1 }
        ensures base { Some (V.base result) ≡ (knows seat).base }
    {
        let Turnstile { table, seats: _ } = self;
        let Seat {
            place,
            number: _,
            made: _,
            seen: _,
        } = seat;
        let mut closed = table.close_with(place);
        let value = closed.take(0).unwrap();
        closed.free();
        value
    }
}

fn let_others_work() {
    for _ in 0..YIELDS {
        yield_now();
    }
}

impl<V: Chronicle> Seat<V> {
    /// The number under which the seat makes its entries.
    pub fn number(&self) -> u32
        ensures { result ≡ (knows self.now).number }
    {
        self.number
    }

    /// How many entries there are, as far as the seat has seen them.
    pub fn seen(&self) -> u64
        ensures { result ≡ length (knows self.now).seen }
    {
        self.seen
    }
}

impl<V: Chronicle> Held<V> {
    /// The number under which the seat makes its entries.
    pub fn number(&self) -> u32
        ensures { result ≡ (held_knows self.now).number }
    {
        self.number
    }

    /// Lends the value. What the borrow leaves is the value that `leave` puts back; nothing else of the turn changes.
    pub fn value(&mut self) -> &mut V
        ensures* writes_back { sem 𝓛 (lends_value V.row V.Entry.row V.Base.row V.Chronicle self.entry result) }
        ensures value { result.now ≡ self.old.value }
    {
        &mut self.value
    }
}
