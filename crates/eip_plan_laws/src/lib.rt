// What is always true of a legal journal of a route set, as contracts of functions that do nothing.
#![tactic(auto)]

mod laws;

pub use laws::resequencing_law;
