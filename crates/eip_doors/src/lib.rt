// What the shipped program hands in: the host's lanes and inlets, each kind as one type, and the output.
#![tactic(auto)]

pub mod doors;
pub mod objects;

pub use doors::{HostInlet, HostLane, Wiping};
pub use objects::{HandedIn, handed_in, inlets, lanes, patterns};
