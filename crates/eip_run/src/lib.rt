// The top call: from the words of a command to its outcome, its text and its status.
#![tactic(auto)]

mod dumps;
mod prepare;
mod print;
mod report;
mod top;

pub use report::{Outcome, Report};
pub use top::run;
