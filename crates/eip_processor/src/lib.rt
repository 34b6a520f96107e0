// Processors and stored predicates under names: what a route's steps call by reference.
#![tactic(auto)]

pub mod predicate;
pub mod processor;
pub mod registered;
pub mod registry;

pub use predicate::{Predicate, StoredPredicate};
pub use processor::{ProcessFault, Processor};
pub use registered::Registered;
pub use registry::{AddFault, Registry};
