// The first fault of a whole route file.
#![tactic(auto)]

pub mod file;
pub mod head;
pub mod later;

pub use file::find_fault;
