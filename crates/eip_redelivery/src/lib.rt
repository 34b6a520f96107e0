// The exchanges that sleep before their step is tried again.
#![tactic(auto)]

mod retries;

pub use retries::Retries;
