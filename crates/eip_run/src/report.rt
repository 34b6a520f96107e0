ghost use Rattle.std.specs.Prelude.{◌≡◌};
ghost use Rattle.eip_run.specs.Outcomes.{stop_status, status_of, unkept, judged, unwritten};

use eip_audit::Verdict;
use eip_ledger::{Journal, Stop};
use eip_route_grammar::RouteFault;

/// What a command came to.
#[derive(Drop)]
pub enum Outcome {
    /// The words are no command.
    Words,
    /// The routes are refused for their first fault.
    Routes(RouteFault),
    /// The route file or the dump could not be read, or the journal of a run that was drained or of a migration could not be written to
    /// its file.
    FilesFault,
    /// The routes were printed in their canonical form.
    Checked,
    /// The routes ran until this stop.
    Ran(Stop),
    /// The journal of so many entries is a legal history of the routes.
    Legal(u64),
    /// It isn't: the first entry, from 1, that breaks its rule, and the rule's number.
    Wrong { entry: u64, rule: u32 },
    /// The dump is refused for this line, from 1, which is the first bad one; 0 where there is no such file, or it is too long.
    BadDump(u64),
    /// The journal of so many entries was written in the latest version.
    Migrated(u64),
    /// The sink failed, and there was no earlier cause.
    SinkFault,
    /// No memory was left.
    NoMemory,
}

/// The report of a command: its exit status, its outcome, and the journal of the run, which is empty where nothing ran.
pub struct Report {
    pub status: u8,
    pub outcome: Outcome,
    pub journal: Journal,
}

impl Drop for Report {
    fn drop(self) {
        let Report {
            status: _,
            outcome,
            journal,
        } = self;
        drop(outcome);
        drop(journal);
    }
}

/// The status of a run by its stop.
fn stop_status(stop: Stop) -> u8
    ensures { result ≡ stop_status stop }
{
    match stop {
        Stop::Drained => 0,
        Stop::SourceFault(_) => 2,
        Stop::Held(_) => 3,
        Stop::Spent => 4,
        Stop::NoMemory => 5,
    }
}

impl Outcome {
    /// The outcome of a run whose journal could not be written to the file that the words name for it: that fault where the run
    /// was drained, else its stop, which came earlier.
    pub fn unkept(stop: Stop) -> Outcome
        ensures { result ≡ unkept stop }
    {
        match stop {
            Stop::Drained => Outcome::FilesFault,
            other => Outcome::Ran(other),
        }
    }

    /// The outcome of an audit by its verdict.
    pub fn of_verdict(verdict: Verdict) -> Outcome
        ensures { result ≡ judged verdict }
    {
        match verdict {
            Verdict::Legal(entries) => Outcome::Legal(entries),
            Verdict::Wrong { entry, rule } => Outcome::Wrong { entry, rule },
        }
    }

    /// The exit status: 0 drained, checked, legal or migrated, 1 words, routes or a dump refused, 2 a fault of files, a source or the
    /// sink, 3 groups held, 4 turns spent, 5 out of memory, 6 a journal that isn't legal.
    pub fn status(&self) -> u8
        ensures { result ≡ status_of self.now }
    {
        match self {
            Outcome::Words => 1,
            Outcome::Routes(_) => 1,
            Outcome::FilesFault => 2,
            Outcome::Checked => 0,
            Outcome::Ran(stop) => stop_status(*stop),
            Outcome::Legal(_) => 0,
            Outcome::Wrong { .. } => 6,
            Outcome::BadDump(_) => 1,
            Outcome::Migrated(_) => 0,
            Outcome::SinkFault => 2,
            Outcome::NoMemory => 5,
        }
    }

    /// What is left of an outcome whose text could not be written: the failure of the sink where the run was drained, the routes
    /// were checked, the journal was judged, or it was written by a migration; else the outcome, whose cause came earlier.
    pub fn unwritten(self) -> Outcome
        ensures { result ≡ unwritten self }
    {
        match self {
            Outcome::Ran(Stop::Drained)
            | Outcome::Checked
            | Outcome::Legal(_)
            | Outcome::Wrong { .. }
            | Outcome::Migrated(_) => Outcome::SinkFault,
            other => other,
        }
    }
}
