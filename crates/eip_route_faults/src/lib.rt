// The first fault of a value of a route file: the rules for texts and numbers, and the walk by the
// grammar's table.
#![tactic(auto)]

pub mod values;
pub mod walk;

pub use eip_route_grammar::{Cause, Entry, Known, RouteFault, print_cause};
