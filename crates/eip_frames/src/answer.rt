use eip_exchange::{Ended, Fault, Message};
use eip_text::{Boxed, Series};

/// What closed a group (Camel manual, *Aggregate*, completion).
#[derive(Clone, Copy, Debug, PartialEq, Eq)]
pub enum Completion {
    Size,
    Predicate,
    Timeout,
    Force,
}

/// What a request is answered.
#[derive(Drop)]
pub enum Answer {
    /// The message was sent.
    Done,
    /// The lane failed.
    SendFailed,
    /// The file was there already.
    Exists,
    /// The processor answered this message.
    Became(Boxed<Message>),
    /// The processor faulted.
    Raised(Boxed<Fault>),
    /// Whether the predicate holds.
    Holds(bool),
    /// The queue took the copy, which has this number.
    Queued(u64),
    /// The queue holds so many copies and takes no more.
    Full(u32),
    /// The queue was full and the copy was dropped.
    Dropped,
    /// The called route runs.
    Entered,
    /// `count` parts have the numbers from `first` on.
    Born {
        first: u64,
        count: u32,
    },
    /// How the parts ended, by index.
    Joined(Series<Ended>),
    /// The message joined this group, which stays open.
    Arrived(u64),
    /// The message closed this group, whose exchange has this number.
    Closed {
        group: u64,
        cause: Completion,
        number: u64,
    },
    /// The aggregator's strategy faulted.
    Unfit(Boxed<Fault>),
    /// Nobody held the key.
    Fresh,
    /// This exchange holds the key.
    Duplicate(u64),
    /// It sleeps until this moment.
    Slept(u64),
    /// The line was written.
    Noted,
    /// The exchange has ended.
    Finished,
    /// The source did not take the end.
    CommitFailed,
}
