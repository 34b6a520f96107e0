// The grammar of route files: the keys of their objects, what the value of each is to be, and what is
// wrong with an object.
#![tactic(auto)]

pub mod fault;
pub mod keyed;
pub mod keys;
pub mod known;
pub mod objects;
pub mod table;
pub mod texts;

pub use fault::{Cause, RouteFault, print_cause};
pub use known::{Entry, Known};
