// What is printed of a set of routes is read as the same set again.
#![tactic(auto)]

mod laws;

pub use laws::printing_law;
