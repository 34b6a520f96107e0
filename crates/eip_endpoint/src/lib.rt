// The outside as traits: lanes, inlets, files and sinks, each with a count of faults and, where it tells it, its content.
#![tactic(auto)]

pub mod counter;
pub mod endpoint;
pub mod files;
pub mod inlets;
pub mod lanes;
pub mod listing;
pub mod memory_files;
pub mod memory_lane;
pub mod memory_sink;
pub mod memory_source;
pub mod sink;
pub mod source;

pub use counter::CallCounter;
pub use endpoint::{Call, Endpoint, Outcome, SendFault};
pub use files::{FileRead, Files, FilesFault, Mover};
pub use inlets::{Inlet, Inlets, find_inlet};
pub use lanes::{Lane, Lanes, find_lane};
pub use listing::in_byte_order;
pub use memory_files::MemoryFiles;
pub use memory_lane::MemoryLane;
pub use memory_sink::MemorySink;
pub use memory_source::MemorySource;
pub use sink::{Sink, SinkFault};
pub use source::{Commit, CommitFault, CommitOutcome, PullFault, Pulled, Refusal, Source};
