// The open groups of aggregators: the messages that have come together and are not yet one exchange.
#![tactic(auto)]

mod closed;
mod closing;
mod group;
mod groups;
mod key;
mod places;

pub use closed::{ArriveFault, Arrived, Closed, OpenGroup};
pub use groups::Groups;
