ghost use Rattle.std.specs.Prelude.{◌≡◌, ◌+◌, ◌<◌, ◌≤◌, ◌-◌, ◌^◌, reverse};
ghost use Rattle.eip_history.specs.Counts.{accepted_in, refused_in, accepted_count, refused_count, total_count, completed_count, handled_count, failed_count, waiting_count};
ghost use Rattle.eip_hub.specs.View.{plan};
ghost use Rattle.eip_endbook.specs.Totals.{counted, CountsFirst};

use eip_exchange::Ending;
use eip_hub::Hub;
use eip_ledger::{Entry, Kind};

/// The counts of a run.
#[derive(Clone, Copy, Debug, PartialEq, Eq)]
pub struct Summary {
    /// The items that became exchanges.
    pub accepted: u64,
    /// The items that were refused.
    pub refused: u64,
    /// All exchanges, of whatever origin.
    pub total: u64,
    /// The exchanges whose route ran to its end.
    pub completed: u64,
    /// The exchanges whose fault a handler took.
    pub handled: u64,
    /// The exchanges that ended with a fault.
    pub failed: u64,
    /// The exchanges that have not ended.
    pub waiting: u64,
}

/// How many exchanges ended in which way, and how many have not ended.
#[derive(Clone, Copy)]
struct Ends {
    completed: u64,
    handled: u64,
    failed: u64,
    waiting: u64,
}

impl Ends {
    /// Counts one more exchange, which ended so or has not ended.
    fn count(&mut self, ended: Option<Ending>)
        requires completed { self.old.completed < 2 ^ 64 - 1 }
        requires handled { self.old.handled < 2 ^ 64 - 1 }
        requires failed { self.old.failed < 2 ^ 64 - 1 }
        requires waiting { self.old.waiting < 2 ^ 64 - 1 }
        ensures { self.new ≡ counted ended self.old }
    {
        match ended {
            Some(Ending::Completed) => self.completed += 1,
            Some(Ending::Handled) => self.handled += 1,
            Some(Ending::Failed) => self.failed += 1,
            None => self.waiting += 1,
        }
    }
}

/// How the exchanges of a run ended.
fn count_ends(hub: &Hub) -> Ends
    ensures { CountsFirst (plan hub.now) hub.now.journal.past (total_count (plan hub.now) hub.now.journal.past) result }
{
    let mut ends = Ends {
        completed: 0,
        handled: 0,
        failed: 0,
        waiting: 0,
    };
    for before in 0..hub.total() {
        ends.count(hub.ended(before + 1));
    }
    ends
}

/// 1 for an entry that accepts an item.
fn accepted_by(entry: &Entry) -> u64
    ensures value { result ≡ accepted_in entry.now.kind }
    ensures small { result ≤ 1 }
{
    match &entry.kind {
        Kind::Accept { .. } => 1,
        _ => 0,
    }
}

/// How many entries accept an item.
fn count_accepted(entries: &[Entry]) -> u64
    ensures { result ≡ accepted_count (reverse entries.now) }
{
    let mut count = 0;
    for entry in entries {
        count += accepted_by(entry);
    }
    count
}

/// 1 for an entry that refuses an item.
fn refused_by(entry: &Entry) -> u64
    ensures value { result ≡ refused_in entry.now.kind }
    ensures small { result ≤ 1 }
{
    match &entry.kind {
        Kind::Refuse { .. } => 1,
        _ => 0,
    }
}

/// How many entries refuse an item.
fn count_refused(entries: &[Entry]) -> u64
    ensures { result ≡ refused_count (reverse entries.now) }
{
    let mut count = 0;
    for entry in entries {
        count += refused_by(entry);
    }
    count
}

/// The counts of a run, without memory.
pub fn totals(hub: &Hub) -> Summary
    ensures accepted { result.accepted ≡ accepted_count hub.now.journal.past }
    ensures refused { result.refused ≡ refused_count hub.now.journal.past }
    ensures total { result.total ≡ total_count (plan hub.now) hub.now.journal.past }
    ensures completed { result.completed ≡ completed_count (plan hub.now) hub.now.journal.past }
    ensures handled { result.handled ≡ handled_count (plan hub.now) hub.now.journal.past }
    ensures failed { result.failed ≡ failed_count (plan hub.now) hub.now.journal.past }
    ensures waiting { result.waiting ≡ waiting_count (plan hub.now) hub.now.journal.past }
    ensures sum { result.completed + result.handled + result.failed + result.waiting ≡ result.total }
{
    let entries = hub.journal().entries();
    let ends = count_ends(hub);
    Summary {
        accepted: count_accepted(entries),
        refused: count_refused(entries),
        total: hub.total(),
        completed: ends.completed,
        handled: ends.handled,
        failed: ends.failed,
        waiting: ends.waiting,
    }
}
