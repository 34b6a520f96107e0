// The canonical form of route files, and the objects of values and steps in that form.
#![tactic(auto)]

pub mod groups;
pub mod members;
pub mod object;
pub mod steps;

pub use groups::Groups;
pub use members::{put_policy, words};
pub use object::{Object, alone, word};
