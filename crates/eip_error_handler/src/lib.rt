// What an error handler says of a fault: which clause takes it, and whether and when its step is tried again.
#![tactic(auto)]

mod choice;
mod redelivery;

pub use choice::{choose, last_segment};
pub use redelivery::{delay, may_retry, merged};
