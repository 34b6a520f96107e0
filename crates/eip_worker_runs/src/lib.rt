// Runs of two workers over lanes and sources in memory, for tests.
#![tactic(auto)]

mod handed;

pub use handed::{Handed, hand_in, run_of};
