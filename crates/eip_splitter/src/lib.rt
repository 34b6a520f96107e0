// The parts that a message is split into.
#![tactic(auto)]

mod array;
mod batch;
mod fault;
mod held;
mod keys;
mod laws;
mod numbered;
mod splitter;
mod token;

pub use fault::SplitFault;
pub use laws::batch_law;
pub use splitter::parts;
