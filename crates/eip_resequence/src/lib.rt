// The values of the batch resequencer: messages of a batch packed in one text, and the order in which they go on.
#![tactic(auto)]

mod laws;
pub mod lists;
mod order;
pub mod packed;
mod packing;
mod unpacking;

pub use laws::{order_law, packing_law};
pub use order::{before, ordered};
pub use packed::{PackFault, Packed};
pub use packing::{object_text, pack};
pub use unpacking::unpack;
