// Reads and prints Camel's Simple language, a profile of it.
#![tactic(auto)]

mod comparisons;
pub mod fault;
mod functions;
mod joints;
mod operators;
pub mod pattern;
pub mod predicates;
pub mod printing;
mod sides;
pub mod templates;
pub mod tree;

pub use fault::SimpleFault;
pub use pattern::{Build, CratePatterns, Pattern, PatternFault, Patterns};
pub use predicates::read_predicate;
pub use printing::{print_predicate, print_template};
pub use templates::read_template;
pub use tree::{Function, Op, Part, Predicate, Side, Template, Test};
