// The run that several workers take turns at: a hub under a turnstile, and what each worker's seat knows of its own entries.
#![tactic(auto)]

mod beginning;
mod deed;
mod looks;
mod next;
mod outcome;
mod shared;
mod turns;

pub use beginning::Beginning;
pub use deed::{Deed, Given};
pub use looks::Look;
pub use outcome::Outcome;
pub use shared::SharedRun;
pub use turns::{enter_and_look, enter_outcome, look};
