// The blocks of steps that lists of a route file say: those that nest, and their numbers.
#![tactic(auto)]

pub mod build;

pub use build::build_list;
