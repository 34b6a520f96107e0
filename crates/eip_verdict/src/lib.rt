// What an audit of a journal can find; when two answers are one, and copies of answers.
#![tactic(auto)]

pub mod copy;
pub mod laws;
pub mod same;
pub mod verdict;

pub use copy::copy_answer;
pub use same::same_answer;
pub use verdict::{Verdict, rule_of};
