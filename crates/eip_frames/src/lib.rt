// What an exchange asks, and what it is answered.
#![tactic(auto)]

pub mod answer;
pub mod fitting;
pub mod request;

pub use answer::{Answer, Completion};
pub use fitting::{fits, is_outside};
pub use request::{At, Request, Seed, Target};
