// Aggregation strategies: how the messages of parts or arrivals become one.
#![tactic(auto)]

mod adding;
mod batch;
mod bodies;
pub mod fault;
mod growing;
mod laws;
mod steps;
mod undo;

pub use adding::{add, add_in_place, fold};
pub use fault::StrategyFault;
pub use laws::batch_law;
pub use undo::Undo;
