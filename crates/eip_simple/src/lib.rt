// Evaluates Camel's Simple language, a profile of it.
#![tactic(auto)]

mod functions;
mod operators;
mod orders;
pub mod predicates;
mod sides;
mod templates;
pub mod values;
pub mod view;

pub use predicates::holds;
pub use values::{ValueFault, value};
pub use view::View;
