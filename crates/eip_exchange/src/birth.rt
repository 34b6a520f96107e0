use crate::message::Message;
use eip_text::Text;

/// Where an exchange comes from.
#[derive(Drop)]
pub enum Origin {
    /// An item that the source of this route gave.
    Source { route: u32, item: Text },
    /// A copy that was offered to the queue of this route.
    Queue { route: u32 },
    /// The part with this index, from 0, of a parent's fan-out.
    Part { parent: u64, index: u32 },
    /// A closed group of an aggregator, by its number.
    Group { group: u64 },
}

/// What an exchange runs: a block of steps, or one send to a printed URI.
#[derive(Drop)]
pub enum Work {
    Block(u32),
    To(Text),
}

/// How an exchange treats faults: with redelivery and handlers, or as its first fault comes.
#[derive(Clone, Copy, Debug, PartialEq, Eq)]
pub enum Care {
    /// Redelivery and handlers apply.
    Full,
    /// Each step is tried once and the first fault ends the exchange.
    Bare,
    /// Faults are handed to the parent's handlers; no entry makes such an exchange yet.
    Shared,
}

/// What an exchange is born with.
#[derive(Drop)]
pub struct Birth {
    /// The number of the exchange, from 1 in the order of births.
    pub number: u64,
    pub origin: Origin,
    pub work: Work,
    /// How many queues its lineage has passed.
    pub hops: u32,
    /// How many direct calls are open round it.
    pub depth: u32,
    /// The index of the route in whose blocks it runs, from 0.
    pub route: u32,
    pub care: Care,
    pub message: Message,
}
