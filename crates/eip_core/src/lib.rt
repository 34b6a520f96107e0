// A run on one thread: the hub is drained by the plain schedule, over lanes, inlets and a registry that are handed in.
#![tactic(auto)]

mod drain;
mod outside;
mod served;

pub use drain::drain_alone;
pub use eip_hub::{Hub, OriginView, Ticket};
pub use outside::{ask, pull_source, refused};
pub use served::names_of;
