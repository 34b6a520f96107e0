// The queues of `seda:` endpoints: who waits in them, and how many of their consumers are at work.
#![tactic(auto)]

mod queue;
mod queues;

pub use queues::{OfferFault, Queues};
