// A list is dealt out in turn, as cards are, and gathered again in its order. Lists keep their room, so gathering takes no memory.
#![tactic(auto)]

mod shares;

pub use shares::{deal, gather, with_room};
