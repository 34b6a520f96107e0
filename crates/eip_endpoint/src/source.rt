ghost use Rattle.std.specs.Prelude.{◌≡◌, ℕ, List, Option, IfOk};
ghost use Rattle.eip_text.specs.Causes.{Rises};
ghost use Rattle.eip_uri.specs.Printed.{printed};
ghost use Rattle.eip_endpoint.specs.declared.source.Pulled.{Pulled as APulled};
ghost use Rattle.eip_endpoint.specs.declared.source.Commit.{Commit as ACommit};
ghost use Rattle.eip_endpoint.specs.Content.{extended, preceded, where_same};
ghost use Rattle.eip_endpoint.specs.Pulls.{given_by, all_taken, EndsAtEnd, IsFair, pull_failure, committed, commit_failure};

use eip_exchange::{End, Message};
use eip_text::Text;
use eip_uri::Uri;
use thiserror::Error;

/// Why an item of a source is no exchange.
#[derive(Clone, Copy, Debug, PartialEq, Eq)]
pub enum Refusal {
    /// It is not UTF-8.
    NotText,
    /// It is longer than a body may be, 65,536 bytes.
    TooLong,
}

/// What a pull gives.
#[derive(Drop)]
pub enum Pulled {
    /// A new message, under the name by which its source knows it.
    Item { item: Text, message: Message },
    /// An item that is no message.
    Refused { item: Text, cause: Refusal },
    /// Nothing is left.
    End,
}

/// Why a pull gave nothing.
#[derive(Clone, Copy, Debug, PartialEq, Eq, Error)]
pub enum PullFault {
    /// The source failed, and its count of faults rose or stands at its greatest value.
    #[error("the source failed")]
    Failed,
    /// There was no memory, and nothing was done.
    #[error("out of memory")]
    NoMemory,
}

/// How a commit came out.
#[derive(Clone, Copy, Debug, PartialEq, Eq)]
pub enum CommitOutcome {
    /// The source took the end.
    Done,
    /// The source failed.
    Failed,
}

/// What a source was told of one of its items.
#[derive(Drop)]
pub struct Commit {
    pub item: Text,
    pub end: End,
    pub outcome: CommitOutcome,
}

/// Why a source did not take an end.
#[derive(Clone, Copy, Debug, PartialEq, Eq, Error)]
pub enum CommitFault {
    /// The source failed, and its count of faults rose or stands at its greatest value.
    #[error("the source failed")]
    Failed,
    /// There was no memory, and nothing was done.
    #[error("out of memory")]
    NoMemory,
}

/// An inlet's object: a source that messages are pulled from (Hohpe and Woolf, *Polling Consumer*).
/// What it tells of its content, it tells for each URI, by the URI's printed form.
pub trait Source: Send + Drop {
    /// What it has given so far for a URI, its ends among them, where the object tells it.
    ghost given: { Self → List ℕ → Option (List APulled) };

    /// What is left to give for a URI.
    ghost left: { Self → List ℕ → Option (List APulled) };

    /// What it was told of the ends of items of a URI.
    ghost commits: { Self → List ℕ → Option (List ACommit) };

    /// The count of faults, which never falls.
    ghost inlet_faults: { Self → ℕ };

    /// Gives the first item left for this URI, or its end. `Failed` comes only where the count of faults rose in
    /// this call or stands at its greatest value.
    fn pull(&mut self, from: &Uri) -> Result<Pulled, PullFault>
        ensures given { (u : List ℕ) → given self.new u ≡ extended (given self.old u) (where_same u (printed from.now) (given_by result)) }
        ensures left { (u : List ℕ) → left self.old u ≡ preceded (all_taken (where_same u (printed from.now) (given_by result))) (left self.new u) }
        ensures ends { IfOk result (EndsAtEnd (left self.old (printed from.now))) }
        ensures commits { (u : List ℕ) → commits self.new u ≡ commits self.old u }
        ensures fair { IfOk result IsFair }
        ensures faults { Rises (pull_failure result) (inlet_faults self.old) (inlet_faults self.new) };

    /// Tells the source how the exchange of one of its items ended. `Failed` comes only where the count of faults
    /// rose in this call or stands at its greatest value.
    fn commit(&mut self, from: &Uri, item: &Text, end: &End) -> Result<(), CommitFault>
        ensures given { (u : List ℕ) → given self.new u ≡ given self.old u }
        ensures left { (u : List ℕ) → left self.new u ≡ left self.old u }
        ensures commits { (u : List ℕ) → commits self.new u ≡ extended (commits self.old u) (where_same u (printed from.now) (committed item.now end.now result)) }
        ensures faults { Rises (commit_failure result) (inlet_faults self.old) (inlet_faults self.new) };
}

/// A box of a source is one: a call goes to the object inside.
impl Source for Box<dyn Source> {
    ghost given = { λ b. (Source-box b).given b.value };

    ghost left = { λ b. (Source-box b).left b.value };

    ghost commits = { λ b. (Source-box b).commits b.value };

    ghost inlet_faults = { λ b. (Source-box b).inlet_faults b.value };

    fn pull(&mut self, from: &Uri) -> Result<Pulled, PullFault> {
        (**self).pull(from)
    }

    fn commit(&mut self, from: &Uri, item: &Text, end: &End) -> Result<(), CommitFault> {
        (**self).commit(from, item, end)
    }
}
