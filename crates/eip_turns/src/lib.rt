// The turns of an exchange between two requests: a step with its attempts, and what is done about its fault.
#![tactic(auto)]

mod attempts;
mod course;
mod handling;
mod turns;

pub use attempts::{after_try, begin, begin_whole, hold, step_at};
pub use course::{Course, into_state};
pub use eip_steps::{Effect, fans, fault_of, faults, goes_on, is_tried_again, to_answered, values};
pub use turns::run;
