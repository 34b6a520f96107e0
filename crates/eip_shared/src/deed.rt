use eip_exchange::Origin;
use eip_frames::{Answer, Request};
use eip_ledger::Kind;

/// An answer with the request that it answers, and where the exchange comes from that asked.
pub struct Given {
    pub origin: Origin,
    pub request: Request,
    pub answer: Answer,
}

/// An entry as the worker knows it who made it: where it is an answer, also what it answers. No value of it is ever built: contracts
/// alone speak of it.
pub struct Deed {
    pub kind: Kind,
    pub given: Option<Given>,
}
