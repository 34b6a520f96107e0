// Endpoint URIs.
#![tactic(auto)]

pub mod fault;
mod laws;
mod options;
mod print;
mod read;
mod scheme;
pub mod uri;

pub use fault::UriFault;
pub use laws::grammar_laws;
pub use uri::{After, Exist, Uri};
