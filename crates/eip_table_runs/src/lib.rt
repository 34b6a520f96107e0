// Tables of a run that are filled with many entries and emptied in another order, for tests and for measures.
#![tactic(auto)]

pub mod groups;
pub mod joins;
pub mod keys;
pub mod queues;
pub mod sleepers;
