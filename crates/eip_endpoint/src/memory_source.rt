ghost use Rattle.std.specs.Prelude.{◌≡◌, ◌+◌, ℕ, List, Some, [], IfOk};
ghost use Rattle.eip_text.specs.Causes.{Rises};
ghost use Rattle.eip_uri.specs.Printed.{printed};
ghost use Rattle.eip_endpoint.specs.Content.{extended, preceded, where_same};
ghost use Rattle.eip_endpoint.specs.Pulls.{given_by, all_taken, EndsAtEnd, IsFair, pull_failure, committed, commit_failure};
ghost use Rattle.eip_endpoint.specs.Counters.{fresh};
ghost use Rattle.eip_endpoint.specs.MemorySources.{AreNew, listed, pulls_of, answer_at, next_for, given_for, left_for, told_for, PulledNext, ToldNext};

use crate::counter::CallCounter;
use crate::source::{Commit, CommitFault, CommitOutcome, PullFault, Pulled, Source};
use eip_exchange::End;
use eip_text::{NoMemory, Series, Text};
use eip_uri::Uri;
use std::alloc::Global;
use std::marker::Model;

/// A source in memory, which gives for each URI its items in their order, and then the end at each pull. The calls
/// whose number, from 1 over pulls and commits, stands in a list fail.
#[derive(Drop)]
pub struct MemorySource {
    alloc: Global,
    items: Vec<(Text, Series<Pulled>)>,
    pulls: Vec<Text>,
    commits: Vec<(Text, Commit)>,
    counter: CallCounter,
}

impl Model for MemorySource {
    ghost use Rattle.eip_endpoint.specs.MemorySources.{KeptItems, AreNew};

    ghost Value = { KeptItems };

    ghost view = { λ s. record { items = s.items.items; pulls = s.pulls.items; commits = s.commits.items; counter = s.counter } };

    ghost invariant = { λ s. AreNew s.items.items };
}

/// A copy of what a pull gives.
fn copied(alloc: Global, pulled: &Pulled) -> Result<Pulled, NoMemory>
    ensures { IfOk result (λ p. p ≡ pulled.now) }
{
    match pulled {
        Pulled::Item { item, message } => Ok(Pulled::Item {
            item: item.copy()?,
            message: message.copy(alloc)?,
        }),
        Pulled::Refused { item, cause } => Ok(Pulled::Refused {
            item: item.copy()?,
            cause: *cause,
        }),
        Pulled::End => Ok(Pulled::End),
    }
}

/// How many of the pulls were of this URI.
fn count_of(pulls: &[Text], uri: &[u8]) -> usize
    ensures { result ≡ pulls_of uri.now pulls.now }
{
    pulls.iter().filter(|pull| uri == pull.bytes()).count()
}

/// A copy of the answer behind the first `count`.
fn answer(alloc: Global, items: &[Pulled], count: usize) -> Result<Pulled, NoMemory>
    ensures { IfOk result (λ p. p ≡ answer_at count items.now) }
{
    match items.get(count) {
        Some(pulled) => copied(alloc, pulled),
        None => Ok(Pulled::End),
    }
}

/// A copy of the answer behind the first `count` for a URI.
fn find_answer(
    alloc: Global,
    items: &[(Text, Series<Pulled>)],
    uri: &[u8],
    count: usize,
) -> Result<Pulled, NoMemory>
    ensures { IfOk result (λ p. p ≡ answer_at count (listed uri.now items.now)) }
{
    for pair in items {
        if uri == pair.0.bytes() {
            return answer(alloc, pair.1.items(), count);
        }
    }
    Ok(Pulled::End)
}

impl MemorySource {
    /// A source of these items, each list with its printed URI, by the numbers, from 1, of the calls that are to fail.
    /// Of two pairs with one URI the first counts; a URI that isn't listed has no items. No `End` is among the items,
    /// and their messages are within the limits and without properties. It takes no memory.
    pub fn new(alloc: Global, items: Vec<(Text, Series<Pulled>)>, failing: Vec<u64>) -> MemorySource
        requires { AreNew items.items }
        ensures items { result.items ≡ items.items }
        ensures pulls { result.pulls ≡ [] }
        ensures commits { result.commits ≡ [] }
        ensures counter { result.counter ≡ fresh failing.items }
    {
        MemorySource {
            alloc,
            items,
            pulls: Vec::new(alloc),
            commits: Vec::new(alloc),
            counter: CallCounter::new(failing),
        }
    }

    fn next(&mut self, from: &Uri) -> Result<Pulled, PullFault>
        ensures items { AreNew self.old.items }
        ensures pulled { PulledNext self.old (printed from.now) result self.new }
        ensures faults { Rises (pull_failure result) self.old.counter.faults self.new.counter.faults }
    {
        let Ok(uri) = from.print(self.alloc) else {
            return Err(PullFault::NoMemory);
        };
        if self.pulls.reserve(1).is_err() {
            return Err(PullFault::NoMemory);
        }
        let count = count_of(self.pulls.as_slice(), uri.bytes());
        let Ok(pulled) = find_answer(self.alloc, self.items.as_slice(), uri.bytes(), count) else {
            return Err(PullFault::NoMemory);
        };
        if self.counter.advance() {
            return Err(PullFault::Failed);
        }
        self.pulls.push(uri).unwrap();
        Ok(pulled)
    }

    fn note(&mut self, uri: Text, item: Text, end: End) -> Result<(), CommitFault>
        ensures told { ToldNext self.old uri item end result self.new }
        ensures faults { Rises (commit_failure result) self.old.counter.faults self.new.counter.faults }
    {
        if self.commits.reserve(1).is_err() {
            return Err(CommitFault::NoMemory);
        }
        if self.counter.advance() {
            let outcome = CommitOutcome::Failed;
            let commit = Commit { item, end, outcome };
            self.commits.push((uri, commit)).unwrap();
            return Err(CommitFault::Failed);
        }
        let outcome = CommitOutcome::Done;
        let commit = Commit { item, end, outcome };
        self.commits.push((uri, commit)).unwrap();
        Ok(())
    }
}

impl Source for MemorySource {
    ghost given = { λ s u. Some (given_for s u) };

    ghost left = { λ s u. Some (left_for s u) };

    ghost commits = { λ s u. Some (told_for s u) };

    ghost inlet_faults = { λ s. s.counter.faults };

    /// Gives the next item of this URI, or its end. `Failed` comes exactly where the number of the call stands in the
    /// list, and then the item stays.
    fn pull(&mut self, from: &Uri) -> Result<Pulled, PullFault>
        ensures given { (u : List ℕ) → Some (given_for self.new u) ≡ extended (Some (given_for self.old u)) (where_same u (printed from.now) (given_by result)) }
        ensures left { (u : List ℕ) → Some (left_for self.old u) ≡ preceded (all_taken (where_same u (printed from.now) (given_by result))) (Some (left_for self.new u)) }
        ensures ends { IfOk result (EndsAtEnd (Some (left_for self.old (printed from.now)))) }
        ensures commits { (u : List ℕ) → Some (told_for self.new u) ≡ Some (told_for self.old u) }
        ensures fair { IfOk result IsFair }
        ensures faults { Rises (pull_failure result) self.old.counter.faults self.new.counter.faults }
        ensures pulled { PulledNext self.old (printed from.now) result self.new }
    {
        self.next(from)
    }

    /// Keeps the end, which is `Failed` exactly where the number of the call stands in the list.
    fn commit(&mut self, from: &Uri, item: &Text, end: &End) -> Result<(), CommitFault>
        ensures given { (u : List ℕ) → Some (given_for self.new u) ≡ Some (given_for self.old u) }
        ensures left { (u : List ℕ) → Some (left_for self.new u) ≡ Some (left_for self.old u) }
        ensures commits { (u : List ℕ) → Some (told_for self.new u) ≡ extended (Some (told_for self.old u)) (where_same u (printed from.now) (committed item.now end.now result)) }
        ensures faults { Rises (commit_failure result) self.old.counter.faults self.new.counter.faults }
        ensures told { ToldNext self.old (printed from.now) item.now end.now result self.new }
    {
        let Ok(uri) = from.print(self.alloc) else {
            return Err(CommitFault::NoMemory);
        };
        let Ok(item) = item.copy() else {
            return Err(CommitFault::NoMemory);
        };
        let Ok(end) = end.copy() else {
            return Err(CommitFault::NoMemory);
        };
        self.note(uri, item, end)
    }
}
