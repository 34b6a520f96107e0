// The keys of idempotent consumers: who claimed each, and who holds it.
#![tactic(auto)]

mod claims;
mod holders;
mod keys;
mod name;
mod repo;

pub use repo::{Offered, Repo};
