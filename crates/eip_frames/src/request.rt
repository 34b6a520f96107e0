ghost use Rattle.std.specs.Prelude.{◌≡◌, IfOk};

use eip_exchange::{Care, End, Message, Work};
use eip_text::{NoMemory, Series, Text};
use eip_uri::Exist;

/// Where a message is sent: a file, a host or a handed-in lane.
#[derive(Drop)]
pub enum Target {
    File {
        folder: Text,
        name: Text,
        exist: Exist,
    },
    Line {
        host: Text,
        port: u16,
    },
    Lane(Text),
}

impl Target {
    /// The same target.
    pub fn copy(&self) -> Result<Target, NoMemory>
        ensures { IfOk result (λ t. t ≡ self.now) }
    {
        match self {
            Target::File {
                folder,
                name,
                exist,
            } => Ok(Target::File {
                folder: folder.copy()?,
                name: name.copy()?,
                exist: *exist,
            }),
            Target::Line { host, port } => Ok(Target::Line {
                host: host.copy()?,
                port: *port,
            }),
            Target::Lane(name) => Ok(Target::Lane(name.copy()?)),
        }
    }
}

/// What one part of a fan-out is born with.
#[derive(Drop)]
pub struct Seed {
    pub work: Work,
    pub care: Care,
    pub message: Message,
}

/// The place at which a request is asked.
#[derive(Clone, Copy, Debug, PartialEq, Eq)]
pub struct At {
    /// The index of the route whose block runs, from 0.
    pub route: u32,
    /// How many direct calls are open.
    pub depth: u32,
    /// The index of the first part that a fan-out asks for, else 0.
    pub index: u32,
}

/// What an exchange asks for before it goes on.
#[derive(Drop)]
pub enum Request {
    /// Send the message to the target.
    Send {
        target: Target,
        message: Message,
    },
    /// Have the registered processor of this name work on the message.
    Process {
        name: Text,
        message: Message,
    },
    /// Have the registered predicate of this name test the message.
    Test {
        name: Text,
        message: Message,
    },
    /// Put a copy of the message into the queue of this route.
    Offer {
        queue: u32,
        discard: bool,
        message: Message,
    },
    /// Run the block of this route.
    Call {
        route: u32,
    },
    /// Make parts.
    Spawn {
        parts: Series<Seed>,
    },
    /// Wait for `count` parts from number `first` on.
    Join {
        first: u64,
        count: u32,
    },
    /// Bring the message to the aggregator of this block under a key.
    Arrive {
        aggregator: u32,
        key: Text,
        message: Message,
    },
    /// Offer a key to an idempotent repository.
    Idem {
        repository: Text,
        key: Text,
        eager: bool,
        remove: bool,
    },
    /// Sleep for so many ticks.
    Wait {
        ticks: u64,
    },
    /// Write a line of the log.
    Log {
        name: Text,
        text: Text,
    },
    /// End; with `commit` the source is told first.
    Finish {
        end: End,
        message: Message,
        commit: bool,
    },
}
