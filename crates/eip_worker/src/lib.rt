// One of several workers: it takes turns at a run that is shared, and between them calls the lanes and inlets that it owns.
#![tactic(auto)]

mod calls;
mod gate;
mod pace;
mod serving;
mod worker;

pub use eip_core::Hub;
pub use eip_shared::SharedRun;
pub use gate::{Gate, NoGate};
pub use serving::serve;
pub use worker::{Round, Worker};
