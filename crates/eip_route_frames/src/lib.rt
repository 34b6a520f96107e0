// The steps of a route file that hold blocks, from what their objects say and the numbers of these blocks.
#![tactic(auto)]

pub mod frames;

pub use frames::{places_of, step_of};
