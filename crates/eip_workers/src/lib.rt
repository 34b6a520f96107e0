// Worker threads: a run is drained by several workers at once, each with the lanes and inlets that it owns.
#![tactic(auto)]

mod rounds;
mod run;
mod sources;

pub use eip_crew::{Gate, NoGate};
pub use run::run_workers;
