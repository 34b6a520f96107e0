// Lines of text over links, by which bytes come and go: a source that cuts what comes, and a lane that sends one line a message.
#![tactic(auto)]

pub mod buffer;
pub mod lane;
pub mod link;
pub mod memory_link;
pub mod reader;
mod reading;
pub mod source;

pub use buffer::LineBuffer;
pub use lane::LineLane;
pub use link::{Link, LinkFault};
pub use memory_link::MemoryLink;
pub use reader::{LineFault, LineReader};
pub use source::LineSource;
