// Files as messages: a source that gives the files of a folder, and a lane that writes a file a message.
#![tactic(auto)]

mod item;
pub mod lane;
pub mod listing;
pub mod source;

pub use lane::FileLane;
pub use listing::Listing;
pub use source::FileSource;
