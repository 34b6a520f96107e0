use eip_exchange::Message;
use eip_frames::Answer;
use eip_hub::Ticket;
use eip_ledger::Refused;
use eip_text::Text;

/// What came of a call outside the lock, which a worker enters in its next turn.
#[derive(Drop)]
pub enum Outcome {
    /// The request of the ticket has this answer.
    Settled {
        ticket: Ticket,
        answer: Answer,
    },
    /// There was no memory for the call, which did nothing: the exchange in hand is ended.
    GivenUp {
        ticket: Ticket,
    },
    /// The pulled source gave an item.
    Accepted {
        source: u32,
        item: Text,
        message: Message,
    },
    /// The pulled source gave an item that is no exchange.
    Refused {
        source: u32,
        item: Text,
        cause: Refused,
    },
    /// The pulled source has no more.
    Ended {
        source: u32,
    },
    /// The pulled source failed.
    Faulted {
        source: u32,
    },
}
