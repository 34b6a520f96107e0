ghost use Rattle.std.specs.Prelude.{◌≡◌, ◌≢◌, drop, map, string_bytes, IfOk, IsErrOf};
ghost use Rattle.std.specs.Result.{IsOkAnd, IsErrAnd};
ghost use Rattle.std.specs.Vec.Iter.{into_iter_items};
ghost use Rattle.std.specs.IoError.{error_kind};
ghost use Rattle.eip_host.specs.Words.{question_in, text_of};

use eip_text::{Text, TextFault};
use std::alloc::Global;
use std::env::Args;
use std::io::{Error, ErrorKind};

/// The page that `--help` prints.
pub const HELP: &str = "\
Runs routes of integration patterns over files, lines of standard input and
lines of peers.

  eip drain ROUTES [--workers N] [--turns N] [--journal FILE]
                     reads the route file ROUTES, runs its routes until nothing
                     is left to do, and prints the log and the end book
  eip check ROUTES   prints the routes of ROUTES in their canonical form, or the
                     first fault of the file
  eip audit ROUTES JOURNAL
                     tells whether the journal in the file JOURNAL is a legal
                     history of the routes of ROUTES, or the first entry that
                     breaks its rule, and the rule's number
  eip migrate OLD NEW
                     writes the journal in the file OLD to the file NEW in the
                     latest version, and tells how many entries it has
  eip load N W       runs the built-in load test over N items, from 1 to 20000,
                     by W workers, from 0 to 16, and prints the last three
                     lines of its book
  eip --help         prints this page
  eip --version      prints the version

A drain has these options, in any order:
  --workers N        N workers, from 0 to 16, run the routes, each in a thread
                     of its own where one can be started; without any, as where
                     N is not given, one thread runs them by a fixed schedule
  --turns N          it stops behind N turns, from 1 to 1000000, or behind
                     100000 where N is not given (an item that is taken or
                     refused is a turn, and so is each answer to a message)
  --journal FILE     it writes the journal of the run to FILE

The status tells how a run came out:
  0  every exchange came to its end, the routes were printed, or the journal
     is legal or was migrated
  1  the words, the route file or the dump were refused
  2  the files, a source or standard output failed
  3  groups are still open, and nothing will close them
  4  the turns were spent before the end
  5  there was no memory
  6  the journal is not legal

Example, with a file routes.json that holds
  [{\"from\": {\"uri\": \"stream:in\", \"steps\": [
    {\"setBody\": {\"constant\": \"hi\"}}, {\"to\": \"log:out\"}]}}]
  eip drain routes.json < lines.txt
";

/// The line that `--version` prints.
pub const VERSION: &str = "eip 0.1.0\n";

/// What a single word asks of the program itself.
#[derive(Clone, Copy, Debug, PartialEq, Eq)]
pub enum Question {
    /// The page of help, by `--help`.
    Help,
    /// The version, by `--version`.
    Version,
}

impl Question {
    /// What the program tells.
    pub fn text(self) -> &'static str
        ensures { result.now ≡ text_of self }
    {
        match self {
            Question::Help => HELP,
            Question::Version => VERSION,
        }
    }
}

/// What these words ask of the program itself. Only a single word does, `--help` or `--version`.
pub fn question_of(words: &[Text]) -> Option<Question>
    ensures { result ≡ question_in words.now }
{
    let [word] = words else {
        return None;
    };
    if word.as_str() == "--help" {
        return Some(Question::Help);
    }
    if word.as_str() == "--version" {
        return Some(Question::Version);
    }
    None
}

/// Each argument as a text.
fn texts_of(alloc: Global, arguments: Args) -> Result<Vec<Text>, TextFault>
    ensures texts { IfOk result (λ texts. texts.items ≡ map string_bytes (into_iter_items arguments)) }
    ensures memory { ¬ (IsErrOf result TextFault.NotText) }
{
    match arguments.map(|word| Text::of(word)).collect(alloc) {
        Ok(texts) => Ok(texts),
        Err(_) => Err(TextFault::NoMemory),
    }
}

/// The texts behind the first of the arguments.
fn texts_behind(alloc: Global, mut arguments: Args) -> Result<Vec<Text>, TextFault>
    ensures texts { IfOk result (λ texts. texts.items ≡ drop 1 (map string_bytes (into_iter_items arguments))) }
    ensures memory { ¬ (IsErrOf result TextFault.NotText) }
{
    let _name = arguments.next();
    texts_of(alloc, arguments)
}

/// The words behind the program's name, which is the first of the arguments that the host gave. `NotText` comes where
/// the host gave none for another cause than want of memory: one of them is not UTF-8.
pub fn words_of(alloc: Global, arguments: Result<Args, Error>) -> Result<Vec<Text>, TextFault>
    ensures words { IfOk result (λ words. IsOkAnd arguments (λ all. words.items ≡ drop 1 (map string_bytes (into_iter_items all)))) }
    ensures not_text { IsErrOf result TextFault.NotText → IsErrAnd arguments (λ e. error_kind e ≢ ErrorKind.OutOfMemory) }
{
    match arguments {
        Ok(all) => texts_behind(alloc, all),
        Err(error) if error.kind() == ErrorKind::OutOfMemory => Err(TextFault::NoMemory),
        Err(_) => Err(TextFault::NotText),
    }
}
