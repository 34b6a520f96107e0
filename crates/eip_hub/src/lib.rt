// The hub: the state machine that every event of a run passes through. Each event adds one legal entry to the journal.
#![tactic(auto)]

mod hub;

pub use eip_aggregator::OpenGroup;
pub use eip_books::{Books, Inner, OriginView, SourceState, Ticket};
pub use eip_exchange::Ending;
pub use eip_ledger::{Note, Place, Stop};
pub use hub::Hub;
