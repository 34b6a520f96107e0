// Messages, and what an exchange is born with and ends as.
#![tactic(auto)]

pub mod birth;
pub mod end;
pub mod headers;
pub mod message;
mod pairs;
pub mod properties;
pub mod setting;

pub use birth::{Birth, Care, Origin, Work};
pub use end::{End, Ended, Ending, Fault};
pub use headers::{HeaderFault, Headers};
pub use message::Message;
pub use properties::Properties;
pub use setting::{Clause, How, Key, Policy, Strategy};
