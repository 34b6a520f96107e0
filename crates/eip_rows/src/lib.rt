// The rows of all exchanges, by number, and a look at one: its cursor is given what it has not been given yet.
#![tactic(auto)]

pub mod coming;
pub mod look;
pub mod rows;
pub mod waking;

pub use rows::Rows;
