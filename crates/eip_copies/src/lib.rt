// Copies of what an exchange asks and of how far it is, on which a cursor goes on while it stays as it was.
#![tactic(auto)]

mod progress;
mod requests;

pub use progress::{copy_ended, copy_frames, copy_pending, copy_queue};
pub use requests::{copy_request, copy_seed};
