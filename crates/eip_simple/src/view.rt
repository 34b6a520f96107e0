use eip_exchange::Message;
use eip_text::Text;

/// What the functions of Simple see of an exchange, by the page "Simple" of Camel's manual.
#[derive(Clone, Copy)]
pub struct View<'v> {
    /// The exchange's message.
    pub message: &'v Message,
    /// The exchange's number, from 1.
    pub number: u64,
    /// The id of the route whose steps run.
    pub route: &'v Text,
}
