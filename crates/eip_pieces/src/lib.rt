// Texts cut at each place of a token.
#![tactic(auto)]

mod laws;
mod token;

pub use laws::cutting_laws;
pub use token::pieces;
