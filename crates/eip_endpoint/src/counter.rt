ghost use Rattle.std.specs.Prelude.{◌≡◌, cond, true};
ghost use Rattle.eip_text.specs.Causes.{Rises};
ghost use Rattle.eip_endpoint.specs.Counters.{counted, counted_as, fails_next, fresh};

use std::marker::Model;

/// Counts the calls of a memory form. Those whose number stands in a list fail, and are counted as faults.
#[derive(Drop)]
pub struct CallCounter {
    failing: Vec<u64>,
    number: u64,
    faults: u64,
}

impl Model for CallCounter {
    ghost use Rattle.eip_endpoint.specs.Counters.{Counter};

    ghost Value = { Counter };

    ghost view = { λ c. record { failing = c.failing.items; number = c.number; faults = c.faults } };
}

impl CallCounter {
    /// A counter before the first call, by the numbers, from 1, of the calls that are to fail. It takes no memory.
    pub fn new(failing: Vec<u64>) -> CallCounter
        ensures { result ≡ fresh failing.items }
    {
        CallCounter {
            failing,
            number: 0,
            faults: 0,
        }
    }

    /// Counts one call that fails, or one that doesn't. Both counts stand still at their greatest value.
    fn count(&mut self, fails: bool)
        ensures counted { self.new ≡ counted_as fails self.old }
        ensures rises { Rises (cond fails 1 0) self.old.faults self.new.faults }
    {
        self.number = self.number.saturating_add(1);
        if fails {
            self.faults = self.faults.saturating_add(1);
        }
    }

    /// Counts one call, and tells whether it fails.
    pub fn advance(&mut self) -> bool
        ensures fails { result ≡ fails_next self.old }
        ensures counted { self.new ≡ counted self.old }
        ensures rises { Rises (cond result 1 0) self.old.faults self.new.faults }
    {
        let fails = self.failing.contains(&self.number.saturating_add(1));
        self.count(fails);
        fails
    }

    /// Counts one call that fails whatever its number.
    pub fn refuse(&mut self)
        ensures counted { self.new ≡ counted_as true self.old }
        ensures rises { Rises 1 self.old.faults self.new.faults }
    {
        self.count(true);
    }
}
