// Values in a row, each under a key: of two entries with one key the first counts.
#![tactic(auto)]

pub mod keyed;

pub use keyed::{find, key_at, value_of};
