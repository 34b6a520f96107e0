// What the test crates share: texts and messages by their words, what a source in memory gives, and whether a test holds.
#![tactic(auto)]

mod items;
mod told;
mod values;

pub use items::{item, two_of_stream};
pub use told::{holds, holds_for};
pub use values::{joined, message_of, message_of_size, repeated, string_of, texts, written_out};
