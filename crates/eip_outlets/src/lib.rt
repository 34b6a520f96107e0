// Which lane or inlet of a set a request goes to, and which worker that belongs to.
#![tactic(auto)]

mod outlets;

pub use outlets::{is_owner, outlet_of, serves, source_inlet};
