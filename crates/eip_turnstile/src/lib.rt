//! A lock with seats: whoever takes turns at it knows what was done in its own turns.
#![tactic(auto)]

mod chronicle;
mod law;
mod lock;
mod seat;
mod view;

pub use chronicle::Chronicle;
pub use law::Law;
pub use seat::{Held, Seat, Turnstile};
pub use view::View;
