use eip_exchange::End;
use eip_text::Text;

/// Where an exchange stands.
#[derive(Drop)]
pub enum Place {
    /// It has ended.
    Ended(End),
    /// It waits in the queue of this route.
    Queue(u32),
    /// This worker has it in hand.
    InHand(u32),
    /// It sleeps until this moment.
    Retry(u64),
    /// It waits for its parts.
    Joining,
    /// It may act.
    Ready,
}

/// Why a run stopped.
#[derive(Clone, Copy, Debug, PartialEq, Eq)]
pub enum Stop {
    /// Nothing waits and no group is open.
    Drained,
    /// Nothing waits but so many open groups.
    Held(u64),
    /// The turns are spent and something waits.
    Spent,
    /// The source of this route failed; the first one that did.
    SourceFault(u32),
    /// No memory was left.
    NoMemory,
}

/// One line of the log.
#[derive(Drop)]
pub struct Note {
    /// The number of the exchange.
    pub number: u64,
    /// The name of the log.
    pub name: Text,
    pub text: Text,
}
