// A crew: workers with a seat each, which work at one run together, each on the lanes and inlets that it owns.
#![tactic(auto)]

mod crew;
mod dealing;
mod seats;
mod team;

pub use crew::Crew;
pub use eip_worker::{Gate, Hub, NoGate, SharedRun};
pub use team::work_together;
