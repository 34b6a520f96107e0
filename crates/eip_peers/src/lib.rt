// A link to peers over connections, which it opens where there is none.
#![tactic(auto)]

pub mod peers;

pub use peers::{Network, PeerLink};
