// The processors and the predicate that the shipped command hands in.
#![tactic(auto)]

pub mod sample;
pub mod shipped;
pub mod test;

pub use sample::{Sample, SampleProcessor};
pub use shipped::registry;
pub use test::SamplePredicate;
