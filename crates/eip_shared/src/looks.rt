use eip_hub::Ticket;
use eip_text::Text;

/// What a worker does next.
#[derive(Drop)]
pub enum Look {
    /// It did something for which nobody outside was needed.
    Did,
    /// It took an exchange in hand. Where that may have to tell a source of its end, `told` has the source's route and the item.
    Call {
        ticket: Ticket,
        told: Option<(u32, Text)>,
    },
    /// It pulls this source.
    Pull(u32),
    /// There is nothing to do for it now.
    Nothing,
    /// The run has stopped.
    Stopped,
    /// There was no memory.
    NoMemory,
}
