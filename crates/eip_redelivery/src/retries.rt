ghost use Rattle.std.specs.Prelude.{◌≡◌, List, [], ◌∷◌, OnOk, OnErr};
ghost use Rattle.eip_redelivery.specs.Sleep.{Call, Slept, Stands, IsAwake, IsFirstMoment, IsFirstSleeper, woken};

use eip_text::NoMemory;
use std::alloc::Global;
use std::collections::BTreeSet;
use std::marker::Model;

/// The exchanges that sleep, each until a moment of the clock, before their step is tried again (Camel manual,
/// *Redelivery Policy*). It stands for the list of its calls.
pub struct Retries {
    // The moment and the number of each, so that the first to wake comes first.
    sleepers: BTreeSet<(u64, u64)>,
}

impl Drop for Retries {
    fn drop(self) {
        let Retries { sleepers } = self;
        drop(sleepers);
    }
}

impl Model for Retries {
    ghost use Rattle.std.specs.Prelude.{List, ℕ};

    ghost Value = { List (ℕ × ℕ) };

    ghost view = { λ r. r.sleepers.keys };
}

impl Retries {
    /// Nobody sleeps. It takes no memory.
    pub fn new(alloc: Global) -> Retries
        ensures { Stands [] result }
    {
        Retries {
            sleepers: BTreeSet::new(alloc),
        }
    }

    /// An exchange that is awake falls asleep until this moment.
    pub fn sleep(&mut self, number: u64, due: u64) -> Result<(), NoMemory>
        requires { IsAwake number self.old }
        ensures ok { OnOk result ((calls : List Call) → Stands calls self.old → Stands (Slept number due ∷ calls) self.new) }
        ensures err { OnErr result (self.new ≡ self.old) }
    {
        self.sleepers.insert((due, number))?;
        Ok(())
    }

    /// The first moment at which somebody wakes; none exactly where nobody sleeps.
    pub fn least(&self) -> Option<u64>
        ensures { (calls : List Call) → Stands calls self.now → IsFirstMoment calls result }
    {
        let first = self.sleepers.first()?;
        Some(first.0)
    }

    /// Wakes one sleeper whose moment has come at this tick: the one whose moment is the first, of equal moments the
    /// least number. None exactly where no moment has come. It takes no memory.
    pub fn wake(&mut self, tick: u64) -> Option<u64>
        ensures sleeper { (calls : List Call) → Stands calls self.old → IsFirstSleeper calls tick result }
        ensures stands { (calls : List Call) → Stands calls self.old → Stands (woken result calls) self.new }
    {
        let first = self.sleepers.first()?;
        if first.0 > tick {
            return None;
        }
        let (_, number) = self.sleepers.pop_first()?;
        Some(number)
    }
}
