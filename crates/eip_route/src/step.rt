use eip_exchange::{How, Strategy};
use eip_simple_read::{Predicate, Template};
use eip_text::{Series, Text};
use eip_uri::Uri;

/// An expression: what gives a step its value (Camel manual, *Languages*).
pub enum Expr {
    /// A template of the Simple language.
    Simple(Template),
    /// This text, whatever the message is.
    Constant(Text),
    /// The header of this name.
    Header(Text),
    /// The exchange property of this name.
    Property(Text),
}

impl Drop for Expr {
    fn drop(self) {
        match self {
            Expr::Simple(template) => drop(template),
            Expr::Constant(text) => drop(text),
            Expr::Header(name) => drop(name),
            Expr::Property(name) => drop(name),
        }
    }
}

/// What a choice or a filter asks of a message (Camel manual, *Predicate*).
pub enum Check {
    /// A predicate of the Simple language.
    Simple(Predicate),
    /// The same for every message.
    Fixed(bool),
    /// The predicate that is handed in under this name.
    Stored(Text),
}

impl Drop for Check {
    fn drop(self) {
        match self {
            Check::Simple(predicate) => drop(predicate),
            Check::Stored(name) => drop(name),
            Check::Fixed(_) => {}
        }
    }
}

/// How the parts of a fan-out run and become one message (Camel manual, *Split EIP*, *Multicast EIP*).
#[derive(Drop)]
pub struct Fan {
    pub strategy: Option<Strategy>,
    /// All parts are born at once; else each behind the one before.
    pub parallel: bool,
    /// No part is born behind one that failed.
    pub stop: bool,
    /// A part's fault has no handler of its own: the parent's handlers take it (`shareUnitOfWork`).
    pub share: bool,
}

/// How arrivals become groups (Camel manual, *Aggregate EIP*).
#[derive(Drop)]
pub struct Aggregate {
    /// What the messages of one group have in common.
    pub key: Expr,
    pub strategy: Strategy,
    /// A group closes once this holds of its message.
    pub predicate: Option<Predicate>,
    /// A group closes with so many arrivals, 1 to 1,000,000.
    pub size: Option<u32>,
    /// A group closes so many ticks behind its last arrival, 1 to 1,000,000,000.
    pub timeout: Option<u64>,
    /// An open group closes when nothing else is left to do.
    pub force: bool,
    /// The number of the block that a closed group runs.
    pub block: u32,
}

/// What takes a fault of a try block (Camel manual, *doTry*: `doCatch`).
#[derive(Drop)]
pub struct Catch {
    /// The kinds of fault that it takes; `Exception` stands for all of them.
    pub names: Series<Text>,
    /// Where it is given, only a fault is taken on whose message it holds.
    pub when: Option<Check>,
    /// The number of the block that runs on that message.
    pub block: u32,
}

/// One step of a route (Camel manual, *Enterprise Integration Patterns*). Nested blocks are given by their numbers,
/// which are greater than that of the block in which the step stands.
pub enum Step {
    /// The value replaces the body.
    SetBody(Expr),
    /// The value becomes the header of this name.
    SetHeader {
        name: Text,
        value: Expr,
    },
    /// The value becomes the exchange property of this name.
    SetProperty {
        name: Text,
        value: Expr,
    },
    /// The header of this name goes.
    RemoveHeader(Text),
    /// The message goes to an endpoint.
    To(Uri),
    /// A line of the log, under this name or the route's.
    Log {
        name: Option<Text>,
        message: Template,
    },
    /// A fault of this kind with the template's value as its text.
    Throw {
        kind: Text,
        message: Template,
    },
    /// The message is handed to the processor of this name, and its answer takes its place.
    Process(Text),
    /// The block of the first check that holds runs, else the last one where it is there (*Content-Based Router*).
    Choice {
        cases: Series<(Check, u32)>,
        otherwise: Option<u32>,
    },
    /// The block runs only where the check holds (*Message Filter*).
    Filter {
        check: Check,
        block: u32,
    },
    /// The block runs for each part of the body (*Splitter*).
    Split {
        how: How,
        fan: Fan,
        block: u32,
    },
    /// Each block runs on a copy of the message.
    Multicast {
        fan: Fan,
        blocks: Series<u32>,
    },
    /// A copy goes to each endpoint that the list names (*Recipient List*).
    Recipients {
        list: Expr,
        delimiter: Text,
        fan: Fan,
    },
    /// The message joins a group (*Aggregator*).
    Aggregate(Aggregate),
    /// The block runs only for a key that was not met before (*Idempotent Consumer*).
    Idempotent {
        key: Expr,
        repository: Text,
        skip: bool,
        eager: bool,
        remove: bool,
        block: u32,
    },
    /// The block runs, then where it faulted that of the first catch that takes the fault, then in any case the last one
    /// (Camel manual, *doTry*).
    Try {
        block: u32,
        catches: Series<Catch>,
        finish: Option<u32>,
    },
}

impl Drop for Step {
    fn drop(self) {
        match self {
            Step::SetBody(value) => drop(value),
            Step::SetHeader { name, value } => {
                drop(name);
                drop(value);
            }
            Step::SetProperty { name, value } => {
                drop(name);
                drop(value);
            }
            Step::RemoveHeader(name) => drop(name),
            Step::To(uri) => drop(uri),
            Step::Log { name, message } => {
                drop(name);
                drop(message);
            }
            Step::Throw { kind, message } => {
                drop(kind);
                drop(message);
            }
            Step::Process(name) => drop(name),
            Step::Choice {
                cases,
                otherwise: _,
            } => drop(cases),
            Step::Filter { check, block: _ } => drop(check),
            Step::Split { how, fan, block: _ } => {
                drop(how);
                drop(fan);
            }
            Step::Multicast { fan, blocks } => {
                drop(fan);
                drop(blocks);
            }
            Step::Recipients {
                list,
                delimiter,
                fan,
            } => {
                drop(list);
                drop(delimiter);
                drop(fan);
            }
            Step::Aggregate(aggregate) => drop(aggregate),
            Step::Idempotent {
                key,
                repository,
                skip: _,
                eager: _,
                remove: _,
                block: _,
            } => {
                drop(key);
                drop(repository);
            }
            Step::Try {
                block: _,
                catches,
                finish: _,
            } => drop(catches),
        }
    }
}
