// Groups that close together.
ghost use Rattle.std.specs.Prelude.{◌≡◌, ◌<◌, ◌≤◌, ◌++◌, ℕ, [], ◌∷◌, length, map, IsSome, None, vec_len, vec_capacity, if◌then◌else◌};
ghost use Rattle.std.specs.Ordering.{nat_cmp};
ghost use Rattle.std.specs.BTreeSet.{contains};
ghost use Rattle.eip_ordered.specs.Numbered.{value_at, Puts};
ghost use Rattle.eip_aggregator.specs.Tables.{AllOpen, closing};

use crate::closed::Closed;
use crate::places::Places;
use eip_frames::Completion;
use std::collections::BTreeSet;

/// Closes the groups of these numbers by this cause, in the order of their numbers, into room that is there. It takes no
/// memory.
pub fn close_all(
    places: &mut Places,
    mut numbers: BTreeSet<u64>,
    room: Vec<Closed>,
    cause: Completion,
) -> Vec<Closed>
    requires open { AllOpen places.old numbers }
    requires empty { room.items ≡ [] }
    requires spare { length numbers.keys ≤ vec_capacity room }
    ensures closed { result.items ≡ map (closing cause places.old) numbers.keys }
    ensures rest { (n : ℕ) → value_at places.new n ≡ (if contains nat_cmp numbers n then None else value_at places.old n) }
{
    let mut closed = room;
    while let Some(number) = numbers.pop_first() {
        let group = close_one(places, number, cause);
        add(&mut closed, group);
    }
    closed
}

/// Closes the group of this number by this cause.
fn close_one(places: &mut Places, number: u64, cause: Completion) -> Closed
    requires { IsSome (value_at places.old number) }
    ensures group { result ≡ closing cause places.old number }
    ensures rest { Puts places.old places.new number None }
{
    match places.close(number) {
        Some(group) => group.into_closed(number, cause),
        None => unreachable!(),
    }
}

/// A closed group goes behind the others, into room that is there.
fn add(closed: &mut Vec<Closed>, group: Closed)
    requires { vec_len closed.old < vec_capacity closed.old }
    ensures items { closed.new.items ≡ closed.old.items ++ group ∷ [] }
    ensures spare { vec_capacity closed.old ≤ vec_capacity closed.new }
{
    drop(closed.push(group));
}
