// One try of each kind of step, and what an answer gives there, as data.
#![tactic(auto)]

mod answers;
mod changes;
mod sends;
mod steps;

pub use answers::{fault_of, goes_on, is_tried_again, to_answered};
pub use eip_parts::{Effect, fans, faults, messages, values};
pub use sends::try_to;
pub use steps::{steps_of, try_step};
