// The books of a run: the journal with the tables that stand for it, and one call for each kind of entry.
#![tactic(auto)]

pub mod books;
mod ends;
mod groups;
mod keys;
mod owned;
mod parts;
mod sleep;
pub mod ticket;

pub use books::Books;
pub use eip_tables::{Asked, Inner, OriginView, RisingNumbers, Row, SourceState, Stage};
pub use ticket::Ticket;
