// The open joins: the parts that a fan-out was cut into, and how those that have ended did.
#![tactic(auto)]

mod joins;
mod maps;
mod open_join;

pub use joins::Joins;
