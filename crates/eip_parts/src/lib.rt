// One try of the steps that run parts, as data: fan-outs and doTry; and the values, checks, faults and messages that every step
// needs.
#![tactic(auto)]

pub mod checks;
mod effect;
pub mod fans;
pub mod faults;
pub mod messages;
mod tries;
pub mod values;

pub use effect::Effect;
pub use tries::{part, try_answered};
