// A cursor is run from one request to the next.
#![tactic(auto)]

mod asked;
mod cursor;
mod ends;
mod going;
mod last;
mod parts;
mod waits;

pub use cursor::Advance;
pub use eip_progress::{Cursor, Next};
pub use eip_turns::{faults, values};
pub use going::{begin, go_on};
