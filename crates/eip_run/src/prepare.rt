ghost use Rattle.std.specs.Prelude.{◌≡◌};
ghost use Rattle.eip_core.specs.Served as served;
ghost use Rattle.eip_run.specs.Given.{materials};
ghost use Rattle.eip_run.specs.Routes.{sites_in, set_in};
ghost use Rattle.std.specs.Prelude.{IfOk};
ghost use Rattle.eip_text.specs.Causes.{Rises};
ghost use Rattle.eip_load.specs.Routes.{load_text};
ghost use Rattle.eip_endpoint.specs.Content.{IfTold};
ghost use Rattle.eip_endpoint.specs.Files.{files_failure};
ghost use Rattle.eip_endpoint.specs.declared.files.FileRead.TheVariants as file_read;
ghost use Rattle.eip_run.specs.Prepared.{held_at, job_of, UsesRoutes, Answers, Reads, Refuses, Prepares};

use eip_command::{Command, Path, WordsFault, read_words};
use eip_core::names_of;
use eip_endpoint::{FileRead, Files, FilesFault, Inlets, Lanes};
use eip_load::load_routes;
use eip_processor::Registered;
use eip_route::{Names, RouteSet};
use eip_route_grammar::{Cause, RouteFault};
use eip_route_json::{RouteRefusal, read_routes};
use eip_simple_read::Patterns;
use eip_text::{NoMemory, Series, Text};
use std::alloc::Global;

/// The most bytes of a route file.
const FILE_LIMIT: usize = 1_048_576;

/// What a command does, with its routes where it has any.
#[derive(Drop)]
pub enum Job {
    /// They run until nothing is left to do, by so many workers or without any, for at most so many turns, and the journal of the
    /// run is written to a file, if one is named for it.
    Drain {
        set: RouteSet,
        workers: u32,
        turns: u32,
        journal: Option<Path>,
    },
    /// They are printed in their canonical form.
    Check(RouteSet),
    /// The journal in this dump is judged as one of theirs.
    Audit {
        set: RouteSet,
        journal: Path,
    },
    /// They run as those of a load, by so many workers or without any.
    Load {
        set: RouteSet,
        workers: u32,
    },
    /// The journal in the old dump is written to the new one.
    Migrate {
        old: Path,
        new: Path,
    },
}

/// Why nothing is done.
#[derive(Drop)]
pub enum Refusal {
    /// The words are no command.
    Words,
    /// The routes have this fault.
    Routes(RouteFault),
    /// The files failed.
    FilesFault,
    NoMemory,
}

/// What the words ask to do, with their routes where they have any, or the first cause why there is nothing to do: the words, then
/// the reading of the route file, then the routes.
pub fn prepare<F: Files, P: Patterns, L: Lanes, I: Inlets, R: Registered>(
    alloc: Global,
    words: &[Text],
    files: &mut F,
    patterns: &mut P,
    lanes: &L,
    inlets: &I,
    registry: &R,
) -> Result<Job, Refusal>
    ensures answer { Prepares (record {
      words = words.now;
      before = materials F.Files files.old (P.pattern_faults patterns.old);
      after = materials F.Files files.new (P.pattern_faults patterns.new);
      names = served.names_of (L.views lanes.now) (I.views inlets.now) (R.view registry.now);
    }) result }
    ensures files { F.files files.new ≡ F.files files.old }
{
    let command = match read_words(alloc, words) {
        Ok(Command::Migrate { old, new }) => return Ok(Job::Migrate { old, new }),
        Ok(command) => command,
        Err(WordsFault::Refused) => return Err(Refusal::Words),
        Err(WordsFault::NoMemory) => return Err(Refusal::NoMemory),
    };
    let read = match route_file(alloc, &command, files) {
        Ok(read) => read,
        Err(refusal) => return Err(refusal),
    };
    let Ok(names) = names_of(alloc, registry, lanes, inlets) else {
        return Err(Refusal::NoMemory);
    };
    match routes_of(alloc, &read, &names, patterns) {
        Ok(set) => Ok(job_of(command, set)),
        Err(refusal) => Err(refusal),
    }
}

/// What a command does, with its routes where it has any.
fn job_of(command: Command, set: RouteSet) -> Job
    ensures { result ≡ job_of command set }
{
    match command {
        Command::Drain {
            workers,
            turns,
            journal,
            ..
        } => Job::Drain {
            set,
            workers,
            turns,
            journal,
        },
        Command::Check { .. } => Job::Check(set),
        Command::Audit { journal, .. } => Job::Audit { set, journal },
        Command::Load { workers, .. } => Job::Load { set, workers },
        Command::Migrate { old, new } => Job::Migrate { old, new },
    }
}

/// What the routes of a command are read from: the file that its words name, or the built-in routes of a load.
fn route_file<F: Files>(
    alloc: Global,
    command: &Command,
    files: &mut F,
) -> Result<FileRead, Refusal>
    requires routes { UsesRoutes command.now }
    ensures read { Reads command.now (F.files files.old) (F.files_faults files.old) (F.files_faults files.new) result }
    ensures files { F.files files.new ≡ F.files files.old }
{
    match command {
        Command::Drain { routes, .. } | Command::Check { routes } | Command::Audit { routes, .. } =>
            match read_at(routes, files) {
                Ok(read) => Ok(read),
                Err(FilesFault::Failed) => Err(Refusal::FilesFault),
                Err(FilesFault::NoMemory) => Err(Refusal::NoMemory),
            },
        Command::Load { items, .. } => match load_file(alloc, *items) {
            Ok(read) => Ok(read),
            Err(NoMemory) => Err(Refusal::NoMemory),
        },
        Command::Migrate { .. } => unreachable!(),
    }
}

/// Reads the route file of a path.
fn read_at<F: Files>(path: &Path, files: &mut F) -> Result<FileRead, FilesFault>
    ensures same { F.files files.new ≡ F.files files.old }
    ensures read { IfOk result (λ r. IfTold (F.files files.old) (λ all. r ≡ held_at path.now all)) }
    ensures faults { Rises (files_failure result) (F.files_faults files.old) (F.files_faults files.new) }
{
    files.read(&path.folder, &path.name, FILE_LIMIT)
}

/// The built-in routes of a load of so many items, as a route file.
fn load_file(alloc: Global, items: u32) -> Result<FileRead, NoMemory>
    ensures { IfOk result (λ r. r ≡ file_read.Bytes (load_text items)) }
{
    let text = load_routes(alloc, items)?;
    let mut bytes = Vec::new(alloc);
    bytes.extend_from_slice(text.bytes())?;
    Ok(FileRead::Bytes(Series::of(bytes)))
}

/// The routes of a file that was read.
fn routes_of<P: Patterns>(
    alloc: Global,
    read: &FileRead,
    names: &Names,
    patterns: &mut P,
) -> Result<RouteSet, Refusal>
    ensures { Answers (sites_in names.now read.now) (set_in names.now read.now) (P.pattern_faults patterns.old) (P.pattern_faults patterns.new) result }
{
    match read {
        FileRead::Missing => Err(refused(alloc, Cause::NoFile)),
        FileRead::TooLong => Err(refused(alloc, Cause::TooLong)),
        FileRead::Bytes(bytes) => match read_routes(alloc, bytes.items(), names, patterns) {
            Ok(set) => Ok(set),
            Err(RouteRefusal::Refused(fault)) => Err(Refusal::Routes(fault)),
            Err(RouteRefusal::NoMemory) => Err(Refusal::NoMemory),
        },
    }
}

/// The refusal of the whole file for a cause.
fn refused(alloc: Global, cause: Cause) -> Refusal
    ensures { Refuses cause result }
{
    match Text::of_str(alloc, "$") {
        Ok(path) => Refusal::Routes(RouteFault { path, cause }),
        Err(NoMemory) => Refusal::NoMemory,
    }
}
