use eip_frames::Request;

/// An exchange that a worker has in hand, with what it asks of somebody outside.
#[derive(Drop)]
pub struct Ticket {
    pub worker: u32,
    /// The number of the exchange, from 1.
    pub number: u64,
    pub request: Request,
}
