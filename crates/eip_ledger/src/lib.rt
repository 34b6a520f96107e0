// The journal of a run, and what is read from it.
#![tactic(auto)]

pub mod entry;
pub mod journal;
pub mod place;

pub use entry::{Entry, Kind, Refused};
pub use journal::Journal;
pub use place::{Note, Place, Stop};
