// Prints sets of routes as route files.
#![tactic(auto)]

mod laws;
mod nested;
mod print;

pub use laws::numbering_law;
pub use print::print_routes;
