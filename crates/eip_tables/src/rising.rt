ghost use Rattle.std.specs.Prelude.{◌≡◌, ◌+◌, ◌<◌, ◌≤◌, ◌-◌, ◌^◌, ◌++◌, ◌∷◌, [], OnOk, length};
ghost use Rattle.eip_history.specs.Tables.{without, put_in};
ghost use Rattle.eip_history.specs.Rules.{first};
ghost use Rattle.eip_tables.specs.Numbers.{place_in, capacity, numbers_from, AreRising};

use eip_text::NoMemory;
use std::alloc::Global;
use std::collections::VecDeque;
use std::marker::Model;

/// Numbers in rising order, with room that is reserved before they are added.
#[derive(Drop)]
pub struct RisingNumbers {
    numbers: VecDeque<u64>,
}

impl Model for RisingNumbers {
    ghost use Rattle.std.specs.Prelude.{◌-◌};
    ghost use Rattle.std.specs.VecDeque.{deque_capacity, deque_len};
    ghost use Rattle.eip_tables.specs.Numbers.{NumbersView};

    ghost Value = { NumbersView };

    ghost view = { λ r. record { numbers = r.numbers.items; spare = deque_capacity r.numbers - deque_len r.numbers } };
}

impl RisingNumbers {
    /// No numbers, without memory.
    pub fn new(alloc: Global) -> RisingNumbers
        ensures { result.numbers ≡ [] }
    {
        RisingNumbers {
            numbers: VecDeque::new(alloc),
        }
    }

    /// The first one.
    pub fn least(&self) -> Option<u64>
        ensures { result ≡ first self.now.numbers }
    {
        self.numbers.front().copied()
    }

    /// The numbers, the least first, in two runs: those of the second one are behind those of the first.
    pub fn runs(&self) -> (&[u64], &[u64])
        ensures { result.0.now ++ result.1.now ≡ self.now.numbers }
    {
        self.numbers.as_slices()
    }

    /// Room for `count` more numbers.
    pub fn reserve(&mut self, count: usize) -> Result<(), NoMemory>
        ensures numbers { self.new.numbers ≡ self.old.numbers }
        ensures ok { OnOk result (count ≤ self.new.spare) }
        ensures spare { self.old.spare ≤ self.new.spare }
        ensures capacity { capacity self.old ≤ capacity self.new }
    {
        Ok(self.numbers.reserve(count)?)
    }

    /// Room for so many numbers in all, those that are there among them.
    pub fn reserve_all(&mut self, count: usize) -> Result<(), NoMemory>
        ensures numbers { self.new.numbers ≡ self.old.numbers }
        ensures ok { OnOk result (count ≤ capacity self.new) }
        ensures capacity { capacity self.old ≤ capacity self.new }
    {
        let more = count.saturating_sub(self.numbers.len());
        self.reserve(more)
    }

    /// A number above all others goes behind them, into room that was reserved.
    pub fn put_last(&mut self, number: u64)
        requires { 0 < self.old.spare }
        ensures numbers { self.new.numbers ≡ self.old.numbers ++ number ∷ [] }
        ensures spare { self.old.spare ≤ self.new.spare + 1 }
        ensures capacity { capacity self.old ≤ capacity self.new }
    {
        let _ = self.numbers.push_back(number);
    }

    /// So many numbers from one on, which is above all others, go behind them, into room that was reserved.
    pub fn put_from(&mut self, first: u64, count: usize)
        requires room { count ≤ self.old.spare }
        requires fits { first + count ≤ 2 ^ 64 }
        ensures numbers { self.new.numbers ≡ self.old.numbers ++ numbers_from first count }
        ensures capacity { capacity self.old ≤ capacity self.new }
    {
        for index in 0..count {
            self.put_last(first + index as u64);
        }
    }

    /// A number goes before the first greater one, into room that was reserved. One that is above all others costs the same
    /// however many there are.
    pub fn put_in(&mut self, number: u64)
        requires room { 0 < self.old.spare }
        requires rising { AreRising self.old.numbers }
        ensures numbers { self.new.numbers ≡ put_in number self.old.numbers }
        ensures spare { self.old.spare ≤ self.new.spare + 1 }
        ensures capacity { capacity self.old ≤ capacity self.new }
    {
        let at = place_of(&self.numbers, number);
        let _ = self.numbers.insert(at, number);
    }

    /// The number goes, where it is there. To take the least one out costs the same however many there are.
    pub fn remove(&mut self, number: u64)
        requires { AreRising self.old.numbers }
        ensures numbers { self.new.numbers ≡ without number self.old.numbers }
        ensures spare { self.old.spare ≤ self.new.spare }
        ensures capacity { capacity self.old ≤ capacity self.new }
    {
        // Mostly it is the least one that goes.
        if let Some(least) = self.least() {
            if least == number {
                let _ = self.numbers.pop_front();
                return;
            }
        }
        if let Ok(at) = self.numbers.binary_search(&number) {
            let _ = self.numbers.remove(at);
        }
    }
}

/// Where a number goes among rising ones: before the first greater one.
fn place_of(numbers: &VecDeque<u64>, number: u64) -> usize
    requires { AreRising numbers.now.items }
    ensures within { result ≤ length numbers.now.items }
    ensures place { place_in number numbers.now.items ≡ result }
{
    match numbers.binary_search(&number) {
        Ok(at) => at + 1,
        Err(at) => at,
    }
}
