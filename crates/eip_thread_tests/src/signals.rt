use std::sync::atomic::{AtomicU32, Ordering};
use std::thread::yield_now;

/// How often a call that waits for another one looks for it, before the test fails.
pub const POLLS: u32 = 1_000_000;

/// Counts what happens, and how often somebody looked for it.
#[derive(Drop)]
pub struct Signal {
    count: AtomicU32,
    polls: AtomicU32,
}

impl Signal {
    pub fn new() -> Signal {
        Signal {
            count: AtomicU32::new(0),
            polls: AtomicU32::new(0),
        }
    }

    /// Counts one more, and answers how many there were before.
    pub fn give(&self) -> u32 {
        self.count.fetch_add(1, Ordering::SeqCst)
    }

    /// How many there are.
    pub fn given(&self) -> u32 {
        self.count.load(Ordering::SeqCst)
    }

    /// Looks until there are more than so many, or it has looked too often. It yields to other threads in between.
    pub fn await_more(&self, than: u32) {
        for _ in 0..POLLS {
            if self.given() > than {
                return;
            }
            self.polls.fetch_add(1, Ordering::SeqCst);
            yield_now();
        }
    }

    /// Whether nobody looked for it too often.
    pub fn came(&self) -> bool {
        self.polls.load(Ordering::SeqCst) < POLLS
    }
}
