use crate::cursor::State;
use crate::tried::Asking;
use eip_exchange::{End, Fault, Message};
use eip_meaning::Context;
use eip_text::Boxed;

/// What is tried.
#[derive(Clone, Copy)]
pub enum Task {
    /// The step of a block at this index.
    Step { block: u32, index: usize },
    /// The send to the dead letter endpoint.
    Dead,
    /// The send that is the exchange's whole work.
    Whole,
}

/// What an exchange waits for between two calls, with the message as it stood at the step, and how many tries may follow.
#[derive(Drop)]
pub enum Wait {
    /// A try has asked this.
    Trying {
        context: Context,
        task: Task,
        left: u32,
        message: Message,
        asking: Boxed<Asking>,
    },
    /// The delay before the next try.
    Sleeping {
        context: Context,
        task: Task,
        left: u32,
        ticks: u64,
        message: Message,
    },
}

/// What comes behind the part of the route that runs.
#[derive(Drop)]
pub enum Frame {
    /// The steps of a block from this index on.
    Rest {
        context: Context,
        block: u32,
        index: usize,
    },
    /// The end of a clause's steps.
    Clause {
        handled: bool,
        continued: bool,
        fault: Fault,
    },
    /// The end of the send to the dead letter endpoint.
    Letter,
}

/// What is to be done next, between two turns of the loop, with the message. The definitions speak of it; the code has its two parts.
#[derive(Drop)]
pub enum Now {
    /// It goes on with this message, behind the frames.
    Goes(Message),
    /// The exchange ends.
    Stops(End, Message),
    /// It waits.
    Waits(Wait),
    /// A block runs.
    Enters {
        context: Context,
        block: u32,
        message: Message,
    },
    /// A clause's steps run, where it has some.
    Handles {
        handled: bool,
        continued: bool,
        fault: Fault,
        context: Context,
        block: Option<u32>,
        message: Message,
    },
    /// The message is sent to the dead letter endpoint.
    Letters {
        context: Context,
        message: Message,
    },
}
