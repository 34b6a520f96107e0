// The host as the outside of a run: its files, its standard input and output, its network, and the words of the program.
#![tactic(auto)]

pub mod counted;
pub mod files;
pub mod network;
pub mod output;
pub mod progress;
pub mod reader_link;
mod reading;
pub mod system;
pub mod words;

pub use counted::{Counted, SharedProgress};
pub use files::HostFiles;
pub use network::HostNetwork;
pub use output::{Output, say};
pub use progress::Progress;
pub use reader_link::ReaderLink;
pub use system::{FileSystem, HostFileSystem};
pub use words::{Question, question_of, words_of};
