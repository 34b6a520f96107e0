ghost use Rattle.std.specs.Prelude.{◌≡◌, ◌↔◌, true, Some, None, IfOk, IsErrOf};
ghost use Rattle.eip_command.specs.Forms.{admits, form_seen, value_of as spec_value_of};
ghost use Rattle.eip_command.specs.Words as spec;
ghost use Rattle.eip_command.specs.declared.words.Verb.TheVariants as verb;

use crate::forms::{Form, OptionRule, Rule};
use crate::options::value_of;
use eip_text::{NoMemory, Text, read_count};
use std::alloc::{AllocError, Global};
use thiserror::Error;

/// A file by its folder and by its name in that folder, which has no `/`.
#[derive(Debug, Drop)]
pub struct Path {
    pub folder: Text,
    pub name: Text,
}

/// The number of workers of a drain whose words name none.
const NO_WORKERS: u32 = 0;

/// The limit on turns of a drain whose words name none.
pub const TURN_LIMIT: u32 = 100_000;

/// The most items of a load.
const MOST_ITEMS: u32 = 20_000;

/// The most workers of a drain or a load.
const MOST_WORKERS: u32 = 16;

/// What the words behind the program's name ask for.
#[derive(Debug, Drop)]
pub enum Command {
    /// `drain ROUTES [--workers N] [--turns N] [--journal FILE]`: the routes of this file run until nothing is left to do, by so
    /// many workers or without any on the caller's own thread, for at most so many turns, and the journal of the run is written
    /// to the file that the words name for it.
    Drain {
        routes: Path,
        workers: u32,
        turns: u32,
        journal: Option<Path>,
    },
    /// `check ROUTES`: the routes of this file are printed in their canonical form.
    Check {
        routes: Path,
    },
    /// `audit ROUTES JOURNAL`: the journal in this dump is judged by the rules of a run of the routes of this file.
    Audit {
        routes: Path,
        journal: Path,
    },
    /// `load N W`: the built-in routes of the load test run with so many items, by so many workers or without any on the
    /// caller's own thread.
    Load {
        items: u32,
        workers: u32,
    },
    /// `migrate OLD NEW`: the journal in the old dump, of whichever version, is written to the new one in the latest version.
    Migrate {
        old: Path,
        new: Path,
    },
}

/// Why words are no command.
#[derive(Clone, Copy, Debug, PartialEq, Eq, Error)]
pub enum WordsFault {
    /// No command has this form.
    #[error("these words are no command")]
    Refused,
    #[error("out of memory")]
    NoMemory,
}

impl From<NoMemory> for WordsFault {
    ghost use Rattle.std.specs.Prelude.{◌≡◌};
    ghost use Rattle.eip_command.specs.declared.words.WordsFault.TheVariants.{NoMemory};

    ghost from_gives = { λ _ e. e ≡ NoMemory };

    fn from(_refused: NoMemory) -> WordsFault {
        WordsFault::NoMemory
    }
}

/// A command without its operands.
#[derive(Clone, Copy, Debug, PartialEq, Eq)]
enum Verb {
    Drain,
    Check,
    Audit,
    Load,
    Migrate,
}

const VERBS: [Verb; 5] = [
    Verb::Drain,
    Verb::Check,
    Verb::Audit,
    Verb::Load,
    Verb::Migrate,
];

/// The options of a drain.
const DRAIN_OPTIONS: [OptionRule; 3] = [
    OptionRule {
        word: "--workers",
        value: Rule::Count(0, MOST_WORKERS),
    },
    OptionRule {
        word: "--turns",
        value: Rule::Count(1, 1_000_000),
    },
    OptionRule {
        word: "--journal",
        value: Rule::Path,
    },
];

impl Verb {
    /// The form of the verb's words.
    fn form(self) -> Form
        ensures { form_seen result ≡ spec.form self }
    {
        match self {
            Verb::Drain => Form {
                word: "drain",
                operands: &[Rule::Path],
                options: &DRAIN_OPTIONS,
            },
            Verb::Check => Form {
                word: "check",
                operands: &[Rule::Path],
                options: &[],
            },
            Verb::Audit => Form {
                word: "audit",
                operands: &[Rule::Path, Rule::Path],
                options: &[],
            },
            Verb::Load => Form {
                word: "load",
                operands: &[Rule::Count(1, MOST_ITEMS), Rule::Count(0, MOST_WORKERS)],
                options: &[],
            },
            Verb::Migrate => Form {
                word: "migrate",
                operands: &[Rule::Path, Rule::Path],
                options: &[],
            },
        }
    }

    /// The verb that a word is.
    fn read(word: &str) -> Option<Verb>
        ensures { result ≡ spec.verb_of word.now }
    {
        for verb in VERBS {
            if verb.form().word == word {
                return Some(verb);
            }
        }
        None
    }

    /// Its command with these words behind it.
    fn command(self, alloc: Global, words: &[Text]) -> Result<Command, NoMemory>
        requires form { admits (spec.form self) words.now ≡ true }
        ensures { IfOk result (λ c. c ≡ spec.asked self words.now) }
    {
        match self {
            Verb::Drain => {
                let routes = Path::read(alloc, words[0].as_str())?;
                let workers = workers_in(&words[1..]);
                let turns = turns_in(&words[1..]);
                let journal = journal_in(alloc, &words[1..])?;
                Ok(Command::Drain {
                    routes,
                    workers,
                    turns,
                    journal,
                })
            }
            Verb::Check => {
                let routes = Path::read(alloc, words[0].as_str())?;
                Ok(Command::Check { routes })
            }
            Verb::Audit => {
                let (routes, journal) = two_files(alloc, words)?;
                Ok(Command::Audit { routes, journal })
            }
            Verb::Load => {
                let (items, workers) = two_counts(words);
                Ok(Command::Load { items, workers })
            }
            Verb::Migrate => {
                let (old, new) = two_files(alloc, words)?;
                Ok(Command::Migrate { old, new })
            }
        }
    }
}

/// The files that the words behind `audit` or `migrate` name.
fn two_files(alloc: Global, words: &[Text]) -> Result<(Path, Path), NoMemory>
    requires form { admits (spec.form verb.Migrate) words.now ≡ true }
    ensures { IfOk result (λ f. (f.0 ≡ spec.first_file words.now) × (f.1 ≡ spec.second_file words.now)) }
{
    let first = Path::read(alloc, words[0].as_str())?;
    let second = Path::read(alloc, words[1].as_str())?;
    Ok((first, second))
}

/// The numbers of items and of workers that the words behind `load` name.
fn two_counts(words: &[Text]) -> (u32, u32)
    requires form { admits (spec.form verb.Load) words.now ≡ true }
    ensures { (result.0 ≡ spec.first_count words.now) × (result.1 ≡ spec.second_count words.now) }
{
    match (read_count(words[0].as_str()), read_count(words[1].as_str())) {
        (Some(items), Some(workers)) => (items, workers),
        _ => unreachable!(),
    }
}

/// The number that an option names, or this one where it isn't given.
fn count_or(options: &[Text], option: &str, otherwise: u32) -> u32
    ensures { result ≡ spec.count_or otherwise (spec_value_of option.now options.now) }
{
    match value_of(options, option) {
        Some(value) => read_count(value.as_str()).unwrap_or(otherwise),
        None => otherwise,
    }
}

/// The number of workers that the options of a drain name, or that of words that name none.
fn workers_in(options: &[Text]) -> u32
    ensures { result ≡ spec.workers_in options.now }
{
    count_or(options, "--workers", NO_WORKERS)
}

/// The limit on turns that the options of a drain name, or that of words that name none.
fn turns_in(options: &[Text]) -> u32
    ensures { result ≡ spec.turns_in options.now }
{
    count_or(options, "--turns", TURN_LIMIT)
}

/// The file that the options of a drain name for its journal, if any.
fn journal_in(alloc: Global, options: &[Text]) -> Result<Option<Path>, NoMemory>
    ensures { IfOk result (λ j. j ≡ spec.journal_in options.now) }
{
    match value_of(options, "--journal") {
        Some(value) => Ok(Some(Path::read(alloc, value.as_str())?)),
        None => Ok(None),
    }
}

/// The command that words give, by the form of each: `drain ROUTES [--workers W] [--turns N] [--journal FILE]`, `check ROUTES`,
/// `audit ROUTES JOURNAL` or `migrate OLD NEW`, where W is a number from 0 to 16, N one from 1 to 1,000,000 and all others are
/// paths, or `load N W`, where N is a number from 1 to 20,000 and W one from 0 to 16. Numbers are decimal digits without a
/// needless zero in front. The options stand in any order, each once at most. A path isn't empty, doesn't begin
/// with `-` and doesn't end with `/`. Its folder is what stands before its last `/`, or `.` without one, or `/` where nothing
/// stands before it; the name is what stands behind. A drain without `--workers` has none, one without `--turns` has 100,000
/// turns, and one without `--journal` writes no file. `Refused` exactly for every other list of words.
pub fn read_words(alloc: Global, words: &[Text]) -> Result<Command, WordsFault>
    ensures command { IfOk result (λ c. spec.command_of words.now ≡ Some c) }
    ensures file { IfOk result (λ c. spec.IsCommand words.now c) }
    ensures refused { IsErrOf result WordsFault.Refused ↔ (spec.command_of words.now ≡ None) }
{
    let [word, behind @ ..] = words else {
        return Err(WordsFault::Refused);
    };
    let Some(verb) = Verb::read(word.as_str()) else {
        return Err(WordsFault::Refused);
    };
    if !verb.form().admits(behind) {
        return Err(WordsFault::Refused);
    }
    Ok(verb.command(alloc, behind)?)
}

impl Path {
    /// The file that a path names.
    fn read(alloc: Global, path: &str) -> Result<Path, NoMemory>
        ensures { IfOk result (λ p. p ≡ spec.file_at path.now) }
    {
        let (folder, name) = split_path(path);
        Ok(Path {
            folder: Text::of_str(alloc, folder)?,
            name: Text::of_str(alloc, name)?,
        })
    }
}

/// The folder and the name of the file that a path names.
fn split_path(path: &str) -> (&str, &str)
    ensures folder { result.0.now ≡ spec.folder_of path.now }
    ensures name { result.1.now ≡ spec.name_of path.now }
{
    match path.rsplit_once('/') {
        None => (".", path),
        Some((front, name)) => (or_root(front), name),
    }
}

/// The folder that a text before the last `/` names: the root where it is empty.
fn or_root(front: &str) -> &str
    ensures { result.now ≡ spec.or_root front.now }
{
    if front.is_empty() { "/" } else { front }
}
