// What a route means: definitions and their laws, which the crates above cite, and for whom and where its steps run.
#![tactic(auto)]

pub mod context;
mod redelivery;
mod tries;

pub use context::Context;
pub use redelivery::{handling_law, once_law, redelivery_law};
pub use tries::finally_law;
