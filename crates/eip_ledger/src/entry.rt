use eip_exchange::Message;
use eip_frames::Answer;
use eip_text::{Boxed, Text};

/// Why a source's item is no exchange.
#[derive(Clone, Copy, Debug, PartialEq, Eq)]
pub enum Refused {
    /// It is not UTF-8.
    NotText,
    /// It is longer than a body may be.
    TooLong,
}

/// What an entry says. Routes, sources and queues go by the index of their route, exchanges by their number.
pub enum Kind {
    /// The source is asked for an item.
    Pull(u32),
    /// The source gave an item, which is a new exchange.
    Accept {
        source: u32,
        item: Text,
        message: Boxed<Message>,
    },
    /// The source gave an item that is no exchange.
    Refuse {
        source: u32,
        item: Text,
        cause: Refused,
    },
    /// The source has no more.
    SourceEnd(u32),
    /// The source failed and is asked no more.
    SourceFault(u32),
    /// The exchange left its queue.
    Start {
        queue: u32,
        number: u64,
    },
    /// The exchange is in hand for what it asks of the outside.
    Take(u64),
    /// The exchange's request was answered.
    Answer {
        number: u64,
        answer: Answer,
    },
    /// The clock moved to this moment.
    Tick(u64),
    /// The groups that may be forced were closed.
    Force,
    /// The exchange was ended for want of memory.
    Starve(u64),
    /// The exchange is in hand no more.
    Return(u64),
}

impl Drop for Kind {
    fn drop(self) {
        match self {
            Kind::Accept {
                source: _,
                item,
                message,
            } => {
                drop(item);
                drop(message);
            }
            Kind::Refuse {
                source: _,
                item,
                cause: _,
            } => drop(item),
            Kind::Answer { number: _, answer } => drop(answer),
            Kind::Pull(_)
            | Kind::SourceEnd(_)
            | Kind::SourceFault(_)
            | Kind::Start {
                queue: _,
                number: _,
            }
            | Kind::Take(_)
            | Kind::Tick(_)
            | Kind::Force
            | Kind::Starve(_)
            | Kind::Return(_) => {}
        }
    }
}

/// One atomic step of one worker.
#[derive(Drop)]
pub struct Entry {
    pub worker: u32,
    pub kind: Kind,
}
