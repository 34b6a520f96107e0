ghost use Rattle.std.specs.Prelude.{◌≡◌, ◌≤◌, [], length};
ghost use Rattle.eip_core.specs.Doors.{CanRun};
ghost use Rattle.eip_core.specs.Drain.{CanDrain};
ghost use Rattle.eip_core.specs.Served.{names_of};
ghost use Rattle.eip_endpoint.specs.Inlets.{inlet_views};
ghost use Rattle.eip_endpoint.specs.Lanes.{lane_views};
ghost use Rattle.eip_run.specs.Given.{outside};
ghost use Rattle.eip_run.specs.Kept.{Keeps};
ghost use Rattle.eip_run.specs.Reports.{IsNew, Ran, Reports};
ghost use Rattle.eip_run.specs.Caused.{IsReport};
ghost use Rattle.eip_run.specs.Drained.{Drained};

use crate::dumps::{judge, migrate};
use crate::prepare::{Job, prepare};
use crate::print::{
    Account, tell_check, tell_memory, tell_migration, tell_refusal, tell_run, tell_verdict,
};
use crate::report::{Outcome, Report};
use eip_command::{Path, TURN_LIMIT};
use eip_core::{Hub, drain_alone};
use eip_dump::dump;
use eip_endpoint::{Endpoint, Files, FilesFault, Inlet, Lane, Sink, Source};
use eip_ledger::{Journal, Stop};
use eip_processor::Registered;
use eip_route::RouteSet;
use eip_simple_read::Patterns;
use eip_text::Text;
use eip_workers::{NoGate, run_workers};
use std::alloc::Global;
use std::sync::Wait;
use std::thread::Threads;

/// The limit on turns of a load.
const LOAD_TURNS: u32 = 1_000_000;

/// The journal of a command that ran nothing.
fn unused_journal(alloc: Global) -> Journal
    ensures { IsNew result }
{
    Journal::new(alloc, 0, TURN_LIMIT)
}

/// How routes are run: the number of workers and the limit on turns, what is told of the run, and the file that is named for its
/// journal.
#[derive(Drop)]
struct Terms {
    workers: u32,
    turns: u32,
    account: Account,
    journal: Option<Path>,
}

/// Writes the dump of a journal to the file that is named for it, in place of what it held. Without one nothing is done.
fn keep_journal<F: Files>(
    alloc: Global,
    named: &Option<Path>,
    journal: &Journal,
    files: &mut F,
) -> Result<(), FilesFault>
    ensures { Keeps named.now journal.now (F.files files.old) (F.files files.new) (F.files_faults files.old) (F.files_faults files.new) result }
{
    let Some(path) = named else {
        return Ok(());
    };
    let Ok(text) = dump(alloc, journal) else {
        return Err(FilesFault::NoMemory);
    };
    files.write(&path.folder, &path.name, text.bytes(), false)
}

/// Drains the sources of a run that has no entry yet: by its workers, or without any by the plain schedule on this thread.
fn drain_hub<E: Endpoint, S: Source, R: Registered + Sync, W: Threads + Wait + Sync>(
    rt: &W,
    alloc: Global,
    hub: Hub,
    lanes: &mut Vec<Lane<E>>,
    inlets: &mut Vec<Inlet<S>>,
    registry: &R,
    workers: u32,
) -> (Hub, Stop)
    requires workers { (workers ≤ 16) × (hub.journal.workers ≡ workers) }
    requires begins { hub.journal.past ≡ [] }
    requires can_run { CanDrain hub (lane_views E.Endpoint lanes.old.items) (inlet_views S.Source inlets.old.items) (R.view registry.now) }
    ensures set { result.0.set ≡ hub.set }
    ensures ran { Ran hub.set workers hub.journal.turns result.0.journal result.1 (lane_views E.Endpoint lanes.old.items) (lane_views E.Endpoint lanes.new.items)
        (inlet_views S.Source inlets.old.items) (inlet_views S.Source inlets.new.items) (R.view registry.now) }
{
    if workers > 0 {
        return run_workers(rt, alloc, hub, lanes, inlets, registry, &NoGate, workers);
    }
    let mut hub = hub;
    let stop = drain_alone(&mut hub, lanes, inlets, registry);
    (hub, stop)
}

/// Runs a set of routes on these terms, and gives an account of the run.
fn drain<F: Files, E: Endpoint, S: Source, R: Registered + Sync, O: Sink, W: Threads + Wait + Sync>(
    rt: &W,
    alloc: Global,
    set: RouteSet,
    terms: Terms,
    files: &mut F,
    lanes: &mut Vec<Lane<E>>,
    inlets: &mut Vec<Inlet<S>>,
    registry: &R,
    out: &mut O,
) -> (Outcome, Journal)
    requires few { length set.routes ≤ 256 }
    requires workers { terms.workers ≤ 16 }
    requires some { 1 ≤ terms.turns }
    requires limit { terms.turns ≤ 1000000 }
    requires can_run { CanRun set (names_of (lane_views E.Endpoint lanes.old.items) (inlet_views S.Source inlets.old.items) (R.view registry.now)) }
    ensures drained { Drained terms.account terms.journal set terms.workers terms.turns result.1
        (F.files files.old) (F.files files.new) (F.files_faults files.old) (F.files_faults files.new)
        (lane_views E.Endpoint lanes.old.items) (lane_views E.Endpoint lanes.new.items) (inlet_views S.Source inlets.old.items) (inlet_views S.Source inlets.new.items)
        (R.view registry.now) (O.bytes out.old) (O.bytes out.new) (O.sink_faults out.old) (O.sink_faults out.new) result.0 }
{
    let Ok(hub) = Hub::new(alloc, set, terms.workers, terms.turns) else {
        let outcome = tell_memory(out, Outcome::NoMemory);
        return (outcome, unused_journal(alloc));
    };
    let (hub, stop) = drain_hub(rt, alloc, hub, lanes, inlets, registry, terms.workers);
    let kept = keep_journal(alloc, &terms.journal, hub.journal(), files);
    let outcome = tell_run(alloc, &hub, terms.account, stop, kept, out);
    (outcome, hub.into_journal())
}

/// Does what the words ask for, or tells why nothing is done.
fn carry_out<
    F: Files,
    P: Patterns,
    E: Endpoint,
    S: Source,
    R: Registered + Sync,
    O: Sink,
    W: Threads + Wait + Sync,
>(
    rt: &W,
    alloc: Global,
    words: &[Text],
    files: &mut F,
    patterns: &mut P,
    lanes: &mut Vec<Lane<E>>,
    inlets: &mut Vec<Inlet<S>>,
    registry: &R,
    out: &mut O,
) -> (Outcome, Journal)
    ensures report { Reports (record {
      words = words.now;
      before = outside F.Files O.Sink files.old (P.pattern_faults patterns.old) (lane_views E.Endpoint lanes.old.items) (inlet_views S.Source inlets.old.items) out.old;
      after = outside F.Files O.Sink files.new (P.pattern_faults patterns.new) (lane_views E.Endpoint lanes.new.items) (inlet_views S.Source inlets.new.items) out.new;
      registry = R.view registry.now;
      journal = result.1;
    }) result.0 }
{
    match prepare(alloc, words, files, patterns, lanes, inlets, registry) {
        Ok(
            Job::Drain {
                set,
                workers,
                turns,
                journal,
            },
        ) => {
            let terms = Terms {
                workers,
                turns,
                account: Account::Whole,
                journal,
            };
            drain(rt, alloc, set, terms, files, lanes, inlets, registry, out)
        }
        Ok(Job::Load { set, workers }) => {
            let terms = Terms {
                workers,
                turns: LOAD_TURNS,
                account: Account::Summary,
                journal: None,
            };
            drain(rt, alloc, set, terms, files, lanes, inlets, registry, out)
        }
        Ok(Job::Check(set)) => (tell_check(alloc, out, &set), unused_journal(alloc)),
        Ok(Job::Audit { set, journal }) => {
            let judged = judge(alloc, set, &journal, files);
            (tell_verdict(alloc, out, judged), unused_journal(alloc))
        }
        Ok(Job::Migrate { old, new }) => {
            let migrated = migrate(alloc, &old, &new, files);
            (tell_migration(alloc, out, migrated), unused_journal(alloc))
        }
        Err(refusal) => (tell_refusal(alloc, out, refusal), unused_journal(alloc)),
    }
}

/// Runs the command of these words: reads its route file from `files`, if it has one, with `patterns` for the patterns of its predicates.
/// A `drain` runs the routes over the lanes and inlets that are handed in, with the processors and predicates of the registry, for
/// at most as many turns as the words name or 100,000 where they name none, and writes log and book to `out` by one call; a
/// `check` writes the routes in their canonical form. A `load` reads no file: it runs the built-in routes of the load test for
/// at most 1,000,000 turns, and writes the last three lines of the book alone; those routes have a fault where no inlet `load`
/// and no processor `keep` is handed in. Where the words of a drain or a load name workers, these run the routes, each in a thread of
/// its own where one can be started, and it is not said that the call returns then, since it waits for them. An `audit` reads a route file too, and then a dump: it writes whether the journal in it is a
/// legal history of the routes, or else the first entry that breaks its rule. A `migrate` reads a dump of any version and writes its
/// journal to another file in the latest one. A dump has at most 268,435,456 bytes.
///
/// Where the words of a drain name a file for it, the dump of the run's journal is written there before the text, in place of
/// what the file held, and whatever the stop of the run is; no other file changes, and none where nothing ran. Where the files
/// fail in that, a run that was drained is told as `FilesFault`, with log and book as its text. A run that ended for want of
/// memory has its journal written too, if it can be. Of the other commands only a `migrate` writes a file, in place of what it held.
///
/// The first cause that applies decides the outcome: the words, the reading of the route file, the routes, the reading of the dump,
/// the dump, a fault of a source, spent turns, held groups, the file of the journal or the new dump, the sink. Want of memory ends the
/// command where it is met.
pub fn run<
    F: Files,
    P: Patterns,
    E: Endpoint,
    S: Source,
    R: Registered + Sync,
    O: Sink,
    W: Threads + Wait + Sync,
>(
    rt: &W,
    alloc: Global,
    words: &[Text],
    files: &mut F,
    patterns: &mut P,
    lanes: &mut Vec<Lane<E>>,
    inlets: &mut Vec<Inlet<S>>,
    registry: &R,
    out: &mut O,
) -> Report
    ensures { IsReport words.now
        (outside F.Files O.Sink files.old (P.pattern_faults patterns.old) (lane_views E.Endpoint lanes.old.items) (inlet_views S.Source inlets.old.items) out.old)
        (outside F.Files O.Sink files.new (P.pattern_faults patterns.new) (lane_views E.Endpoint lanes.new.items) (inlet_views S.Source inlets.new.items) out.new)
        (R.view registry.now) result }
{
    let (outcome, journal) = carry_out(
        rt, alloc, words, files, patterns, lanes, inlets, registry, out,
    );
    Report {
        status: outcome.status(),
        outcome,
        journal,
    }
}
