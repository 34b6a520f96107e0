// The endpoints that a recipient list names.
#![tactic(auto)]

mod fault;
mod items;
mod recipient_list;

pub use fault::RecipientFault;
pub use recipient_list::recipients;
